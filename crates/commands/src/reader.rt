// A reader over lent bytes, which hands out one command after another.
ghost use Rattle.std.specs.Prelude.{◌≡◌, ◌+◌, ◌<◌, length};
ghost use Rattle.commands.specs.Commands.{answer, after, Forth};

use crate::table::{Command, Context, Row};
use faults::fault::ReadFault;

#[derive(Debug, PartialEq, Eq, Drop)]
pub struct Reader<'a> {
    pub bytes: &'a [u8],
    pub at: usize,
}

impl<'a> Reader<'a> {
    // A reader at the start of the bytes.
    pub fn new(bytes: &'a [u8]) -> Reader<'a>
        ensures { (result.bytes.now ≡ bytes.now) × (result.at ≡ 0) }
    {
        Reader { bytes, at: 0 }
    }

    // The command at the place, with its offset, where the context allows it; none at the end of the bytes. That the bytes stay as they
    // are is a clause of its own here and at each walk that goes on from a reader: a name for the equation would say no more.
    #[tactic(auto, using(crate::proofs::Decoded::decoding), unfolding(crate::specs::Commands::answer, crate::specs::Commands::after))]
    pub fn next(&mut self, context: Context) -> Result<Option<(usize, Command)>, ReadFault>
        ensures same { self.new.bytes.now ≡ self.old.bytes.now }
        ensures moved { self.new.at ≡ after context self.old.bytes.now self.old.at }
        ensures told { result ≡ answer context self.old.bytes.now self.old.at }
        ensures forth { Forth result self.old.at self.new.at (length self.old.bytes.now) }
    {
        let at = self.at;
        if at >= self.bytes.len() {
            return Ok(None);
        }
        let row = Row::decode(self.bytes[at], context).ok_or(ReadFault::NotAllowed(at))?;
        let rest = &self.bytes[at + 1..];
        let width = row.width();
        if rest.len() < width {
            return Err(ReadFault::Short(at));
        }
        let numbers = row.numbers(rest);
        if !row.holds(numbers) {
            return Err(ReadFault::OutOfRange(at));
        }
        self.at += 1 + width;
        Ok(Some((at, Command::made(row.kind, numbers))))
    }
}
