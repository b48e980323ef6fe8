// The calls of a routine: the codes that it calls, and its first call of a code that no routine has.
ghost use Rattle.std.specs.Prelude.{◌≡◌, ◌<◌, true, false, [], ◌∷◌, slice_set};
ghost use Rattle.listing.specs.Calls.{calls_at, first_unknown, or_else, CallsTold};

use crate::codes::Codes;
use commands::reader::Reader;
use commands::table::{Command, Context};
use reading::heads::{Head, Heads};
use std::marker::Model;

// The codes that a routine calls, and its first call of a code that no routine has.
#[derive(Clone, Copy, Debug, PartialEq, Eq)]
pub struct Calls {
    pub marks: Codes,
    pub unknown: Option<Head>,
}

impl Model for Calls {
    ghost use Rattle.std.specs.Prelude.{◌≡◌, length};
    ghost use Rattle.listing.specs.Values.{Calls};

    ghost Value = { Calls };

    ghost view = { λ c. record { marks = c.marks; unknown = c.unknown } };

    ghost invariant = { λ c. length c.marks ≡ 256 };

    ghost inverse = { λ c. record { marks = c.marks; unknown = c.unknown } };
}

impl Calls {
    // One more call.
    fn note(&mut self, known: &Heads, call: Head)
        ensures marks { self.new.marks ≡ slice_set self.old.marks call.code true }
        ensures unknown { self.new.unknown ≡ or_else self.old.unknown (first_unknown known.now (call ∷ [])) }
    {
        self.marks.insert(call.code);
        if !known.contains(call.code) {
            self.unknown = self.unknown.or(Some(call));
        }
    }

    // Those of the routine at an offset.
    pub(crate) fn of(bytes: &[u8], known: &Heads, at: usize) -> Calls
        ensures { CallsTold known.now (calls_at bytes.now at) result }
    {
        let mut calls = Calls {
            marks: Codes::none(),
            unknown: None,
        };
        let mut reader = Reader { bytes, at };
        let _ = reader.next(Context::Top);
        'commands: while let Some((at, command)) = reader.next(Context::Body).ok().flatten() {
            match command {
                Command::Call(code) => calls.note(known, Head { code, at }),
                Command::EndRoutine => return calls,
                _ => {}
            }
        }
        calls
    }
}
