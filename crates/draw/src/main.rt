// The program `draw`: loads the three records of a panel, draws a round, and prints its report, or the first reason to refuse them.
#![tactic(auto)]

ghost use Rattle.std.specs.Prelude.{◌≡◌, IfOk};
ghost use Rattle.draw.specs.Printed.{printed};

use history::replay;
use ledger::Call;
use panels::Panel;
use rules::Plate;
use std::alloc::{AllocError, Global};
use std::io::Write;

// The length of the service file's area, in words.
const AREA: usize = 16384;

// Loads the three files of a panel and draws, and gives what is to be printed.
fn describe(heap: Global, panel: &Panel) -> Result<Vec<u8>, AllocError>
    ensures { IfOk result (λ v. v.items ≡ printed panel.now.archive.items panel.now.field.items panel.now.bench.items) }
{
    let calls = [
        Call::Load {
            archive: panel.archive.as_slice(),
            field: panel.field.as_slice(),
            bench: panel.bench.as_slice(),
        },
        Call::Draw,
    ];
    let words = vec![in heap; 0u32; AREA]?;
    let came = replay(heap, words, &Plate, &calls)?;
    came.text(heap)
}

fn run(rt: &HostRuntime) -> anyhow::Result<()> {
    let panel = Panel::read(rt)?;
    let text = describe(rt.alloc(), &panel)?;
    rt.stdout().write_all(text.as_slice())?;
    Ok(())
}

fn main(rt: HostRuntime) -> anyhow::Result<()> {
    run(&rt)
}
