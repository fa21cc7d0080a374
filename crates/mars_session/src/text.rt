//! The text of a session, with room for the line `memory`.
ghost use Rattle.std.specs.Prelude.{◌≡◌, ◌+◌, ◌++◌, ◌≤◌, length, false, IfOk, OnOk, OnErr};
ghost use Rattle.mars_session.specs.TextSeen.{TextSeen, begun_text, text_with, text_done, text_cut, text_bytes};

use mars_base::NoMemory;
use std::alloc::Global;
use std::marker::Model;

/// The line of a session that ran out of memory.
const MEMORY: &[u8] = b"memory\n";

/// How many bytes it has.
const MEMORY_ROOM: usize = 7;

/// Puts bytes last in a list, which has room for them.
fn push_all(more: &[u8], into: &mut Vec<u8>)
    requires room { into.old.len + length more.now ≤ into.old.cap }
    ensures items { into.new.items ≡ into.old.items ++ more.now }
    ensures len { into.new.len ≡ into.old.len + length more.now }
    ensures cap { into.new.cap ≡ into.old.cap }
{
    for byte in more {
        into.push_reserved(*byte);
    }
}

/// A text. While it goes on there is room for the line `memory`.
#[derive(Drop)]
pub(crate) struct SessionText {
    bytes: Vec<u8>,
    mark: usize,
    was_cut: bool,
}

impl Model for SessionText {
    ghost use Rattle.mars_session.specs.TextSeen.{TextSeen};

    ghost Value = { TextSeen };

    ghost use Rattle.mars_session.specs.TextInside.{text_of_inside, IsTextKept};

    ghost view = { text_of_inside };

    ghost invariant = { IsTextKept };
}

impl SessionText {
    /// A text that begins with a line.
    pub(crate) fn new(alloc: Global, line: &[u8]) -> Result<SessionText, NoMemory>
        ensures { IfOk result (λ text. text ≡ begun_text line.now) }
    {
        let mut bytes = Vec::new(alloc);
        bytes.reserve(line.len().checked_add(MEMORY_ROOM).ok_or(NoMemory)?)?;
        push_all(line, &mut bytes);
        let mark = bytes.len();
        Ok(SessionText {
            bytes,
            mark,
            was_cut: false,
        })
    }

    /// Writes a line of the present command. `NoMemory` changes nothing.
    pub(crate) fn push(&mut self, line: &[u8]) -> Result<(), NoMemory>
        requires { self.old.cut ≡ false }
        ensures ok { OnOk result (self.new ≡ text_with self.old line.now) }
        ensures err { OnErr result (self.new ≡ self.old) }
    {
        self.bytes
            .reserve(line.len().checked_add(MEMORY_ROOM).ok_or(NoMemory)?)?;
        push_all(line, &mut self.bytes);
        Ok(())
    }

    /// The present command is done. Takes no memory.
    pub(crate) fn end(&mut self)
        requires { self.old.cut ≡ false }
        ensures { self.new ≡ text_done self.old }
    {
        self.mark = self.bytes.len();
    }

    /// Ends the text with the line `memory`, in place of what the present command wrote. Takes no memory.
    pub(crate) fn cut(&mut self)
        requires { self.old.cut ≡ false }
        ensures { self.new ≡ text_cut self.old }
    {
        self.bytes.truncate(self.mark);
        push_all(MEMORY, &mut self.bytes);
        self.was_cut = true;
    }

    /// Whether it was cut.
    pub(crate) fn was_cut(&self) -> bool
        ensures { result ≡ self.now.cut }
    {
        self.was_cut
    }

    /// All bytes.
    pub(crate) fn bytes(&self) -> &[u8]
        ensures { result.now ≡ text_bytes self.now }
    {
        self.bytes.as_slice()
    }
}
