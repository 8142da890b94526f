// The stack of the nodes whose children are being merged.
ghost use Rattle.std.specs.Prelude.{◌≡◌, ℕ, ◌+◌, ◌*◌, ◌≤◌, List, [], ◌∷◌, ◌++◌, drop, Option};
ghost use Rattle.area.specs.Views.{view, limit, Only};
ghost use Rattle.area.specs.declared.regions.Region.TheVariants.{Stack};
ghost use Rattle.merging.specs.Tables.{Sizes};
ghost use Rattle.merging.specs.Frames.{flag as flag_of, number as number_of, frame_words, Low};

use crate::types::{Frame, Sizes};
use area::{Area, Region};

// The words of a frame.
pub const FRAME: usize = 10;

// fixed memory: the stack is words, so an optional class is two of them.

// Whether there is a class, and its number: any number may be that of a class.
pub fn flag(class: Option<u32>) -> u32
    ensures { result ≡ flag_of class }
{
    match class {
        None => 0,
        Some(_) => 1,
    }
}

pub fn number(class: Option<u32>) -> u32
    ensures { result ≡ number_of class }
{
    match class {
        None => 0,
        Some(class) => class,
    }
}

// The class that two words of the stack stand for.
pub fn class(area: &Area, at: usize) -> Option<u32>
    requires { at + 2 ≤ limit area.now * 16 }
    ensures { (c : Option ℕ) (rest : List ℕ) → drop at (view area.now Stack) ≡ flag_of c ∷ number_of c ∷ rest → result ≡ c }
{
    if area.get(Region::Stack, at) == 0 {
        None
    } else {
        Some(area.get(Region::Stack, at + 1))
    }
}

// Three numbers of the stack.
pub fn numbers(area: &Area, at: usize) -> Sizes
    requires { at + 3 ≤ limit area.now * 16 }
    ensures { (s : Sizes) (rest : List ℕ) → drop at (view area.now Stack) ≡ s.archive ∷ s.field ∷ s.bench ∷ rest → result ≡ s }
{
    Sizes {
        archive: area.get(Region::Stack, at) as usize,
        field: area.get(Region::Stack, at + 1) as usize,
        bench: area.get(Region::Stack, at + 2) as usize,
    }
}

// The frame on top of the stack.
pub fn top(area: &Area, at: usize) -> Frame
    requires { at + 10 ≤ limit area.now * 16 }
    ensures { (f : Frame) (rest : List ℕ) → drop at (view area.now Stack) ≡ frame_words f ++ rest → result ≡ f }
{
    Frame {
        class: class(area, at),
        ends: numbers(area, at + 2),
        field: area.get(Region::Stack, at + 5) as usize,
        bench: area.get(Region::Stack, at + 6) as usize,
        new: numbers(area, at + 7),
    }
}

// Puts a frame on top of the stack, which grows downwards, and gives the new top.
pub fn push(area: &mut Area, at: usize, frame: Frame) -> usize
    requires room { 10 ≤ at }
    requires within { at ≤ limit area.old * 16 }
    requires low { Low frame }
    ensures top { result + 10 ≡ at }
    ensures pile { drop result (view area.new Stack) ≡ frame_words frame ++ drop at (view area.old Stack) }
    ensures only { Only (Stack ∷ []) area.old area.new }
{
    let words = [
        flag(frame.class),
        number(frame.class),
        frame.ends.archive as u32,
        frame.ends.field as u32,
        frame.ends.bench as u32,
        frame.field as u32,
        frame.bench as u32,
        frame.new.archive as u32,
        frame.new.field as u32,
        frame.new.bench as u32,
    ];
    area.write(Region::Stack, at - FRAME, &words);
    at - FRAME
}
