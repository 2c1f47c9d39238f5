// The line that is being read.
ghost use Rattle.std.specs.Prelude.{◌≡◌, ◌++◌, [], ◌∷◌, List, ℕ, OnOk, IfOk, IsTrue, ◌↔◌, length, take, nat_lt};
ghost use Rattle.cad_serve_parts.specs.Lines.{is_blank_byte};
ghost use Rattle.cad_serve_parts.specs.Held.{longest};
ghost use Rattle.cad_serve_parts.specs.Code.Held.{Holds};

use std::alloc::{AllocError, Global};

/// How long a command may be, in bytes. Of a longer line the rest isn't held.
pub const LONGEST: usize = 1 << 20;

/// The line that is being read: its first bytes, whether there are more of them than a command may have, and whether all
/// that came so far is blank.
#[derive(Drop)]
pub struct Line {
    pub held: Vec<u8>,
    pub long: bool,
    pub blank: bool,
}

fn is_blank_byte(byte: u8) -> bool
    ensures { result ≡ is_blank_byte byte }
{
    byte == b' ' || byte == b'\t' || byte == b'\r'
}

// Holds one more byte, where there is room for it, and tells whether the line is too long.
fn hold(held: &mut Vec<u8>, long: bool, byte: u8) -> Result<bool, AllocError>
    ensures { IfOk result (λ l. (pending : List ℕ) → held.old.items ≡ take longest pending → long ≡ nat_lt longest (length pending)
        → (held.new.items ≡ take longest (pending ++ byte ∷ [])) × (l ≡ nat_lt longest (length (pending ++ byte ∷ [])))) }
{
    if held.len() < LONGEST {
        held.push(byte)?;
        return Ok(long);
    }
    Ok(true)
}

impl Line {
    /// A line of which nothing came yet.
    pub fn new(alloc: Global) -> Line
        ensures { Holds result [] }
    {
        Line {
            held: Vec::new(alloc),
            long: false,
            blank: true,
        }
    }

    /// Takes the next byte of the line.
    pub fn push(&mut self, byte: u8) -> Result<(), AllocError>
        ensures { OnOk result ((pending : List ℕ) → Holds self.old pending → Holds self.new (pending ++ byte ∷ [])) }
    {
        self.long = hold(&mut self.held, self.long, byte)?;
        self.blank = self.blank & is_blank_byte(byte);
        Ok(())
    }

    /// Begins the next line.
    pub fn clear(&mut self)
        ensures { Holds self.new [] }
    {
        self.held.clear();
        self.long = false;
        self.blank = true;
    }
}
