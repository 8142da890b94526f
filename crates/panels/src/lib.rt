// The record files of a panel, read from the folder in which a program runs.
#![tactic(auto)]

ghost use Rattle.std.specs.Prelude.{◌≤◌, vec_len, IfOk};

use std::fs::File;
use std::io;
use std::io::{ErrorKind, Read};
use std::rt::Files;

// As many bytes of a record file are read, and no more.
const MOST_BYTES: usize = 4096;

// The bytes of the three files.
#[derive(Drop)]
pub struct Panel {
    pub archive: Vec<u8>,
    pub field: Vec<u8>,
    pub bench: Vec<u8>,
}

// The first bytes of a file. An absent file counts as empty.
fn first_bytes<R: Files + AllocGlobal>(rt: &R, path: &str) -> io::Result<Vec<u8>>
    ensures { IfOk result (λ v. vec_len v ≤ 4096) }
{
    let mut bytes = Vec::new(rt.alloc());
    match File::open(rt, path) {
        Ok(file) => {
            file.take(MOST_BYTES as u64).read_to_end(&mut bytes)?;
        }
        Err(error) => {
            if error.kind() != ErrorKind::NotFound {
                return Err(error);
            }
        }
    }
    // No clause says how many bytes a reader gave.
    bytes.truncate(MOST_BYTES);
    Ok(bytes)
}

impl Panel {
    pub fn read<R: Files + AllocGlobal>(rt: &R) -> io::Result<Panel>
        ensures { IfOk result (λ p. (vec_len p.archive ≤ 4096) × (vec_len p.field ≤ 4096) × (vec_len p.bench ≤ 4096)) }
    {
        Ok(Panel {
            archive: first_bytes(rt, "archive.rec")?,
            field: first_bytes(rt, "field.rec")?,
            bench: first_bytes(rt, "bench.rec")?,
        })
    }
}

#[cfg(test)]
mod tests {
    use super::*;
    use std::fs;
    use std::test::Fail;

    // One test, since tests share the folder that they run in: of files that are there the first bytes are read.
    #[test]
    fn absent_files_are_empty(rt: HostRuntime) -> Result<(), Fail> {
        let panel = Panel::read(&rt)?;
        assert!(rt; panel.archive.is_empty());
        assert!(rt; panel.field.is_empty());
        assert!(rt; panel.bench.is_empty());

        let mut long = [7u8; 5000];
        long[0] = 1;
        long[4095] = 2;
        long[4096] = 3;
        fs::write(&rt, "archive.rec", long.as_slice())?;
        fs::write(&rt, "field.rec", b"short".as_slice())?;
        let panel = Panel::read(&rt);
        // They are removed even where the reading failed.
        fs::remove_file(&rt, "archive.rec")?;
        fs::remove_file(&rt, "field.rec")?;
        let panel = panel?;
        assert_eq!(rt; panel.archive.len(), 4096);
        assert_eq!(rt; panel.archive.first(), Some(&1));
        assert_eq!(rt; panel.archive.last(), Some(&2));
        assert!(rt; panel.archive.as_slice() == &long[..4096]);
        assert_eq!(rt; panel.field.len(), 5);
        assert_eq!(rt; panel.field.first(), Some(&b's'));
        assert_eq!(rt; panel.field.last(), Some(&b't'));
        assert!(rt; panel.bench.is_empty());
        Ok(())
    }
}
