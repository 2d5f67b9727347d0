// The text of a line while it is put together.
ghost use Rattle.std.specs.Prelude.{◌≡◌, ◌+◌, ◌≤◌, [], ◌++◌, length, decimal};
ghost use Rattle.lines.specs.Texts.{field_text};

use arrayvec::ArrayVec;
use itoa::Buffer;
use std::marker::Model;

// Bytes, and not an ArrayString: a label is any bytes.
#[derive(Drop)]
pub(crate) struct Text {
    bytes: ArrayVec<u8, 64>,
}

impl Model for Text {
    ghost use Rattle.std.specs.Prelude.{List, ℕ};

    ghost Value = { List ℕ };

    ghost view = { λ text. text.bytes.items };
}

// Each call asks for the room that it fills, another with each, so none allocates and none fails.
impl Text {
    pub(crate) fn new() -> Text
        ensures { result ≡ [] }
    {
        Text {
            bytes: ArrayVec::new(),
        }
    }

    // Bytes behind what stands there.
    pub(crate) fn put(&mut self, bytes: &[u8])
        requires { length self.old + length bytes.now ≤ 64 }
        ensures { self.new ≡ self.old ++ bytes.now }
    {
        // There is room, so none is refused.
        let _ = self.bytes.try_extend_from_slice(bytes);
    }

    // A number in decimal digits, at most ten.
    pub(crate) fn put_number(&mut self, n: u32)
        requires { length self.old + 10 ≤ 64 }
        ensures items { self.new ≡ self.old ++ decimal n }
        ensures bound { length self.new ≤ length self.old + 10 }
    {
        // One digit, as most numbers here have: no buffer to fill and to copy from.
        if n < 10 {
            self.bytes.push(b'0' + n as u8);
            return;
        }
        self.put(Buffer::new().format(n).as_bytes());
    }

    // A number behind a mark, which is a space, or a space and a letter.
    pub(crate) fn put_behind(&mut self, mark: &[u8], n: u32)
        requires { length self.old + (length mark.now + 10) ≤ 64 }
        ensures items { self.new ≡ self.old ++ (mark.now ++ decimal n) }
        ensures bound { length self.new ≤ length self.old + (length mark.now + 10) }
    {
        self.put(mark);
        self.put_number(n);
    }

    // Two numbers, each behind a space.
    pub(crate) fn put_fields(&mut self, first: u32, second: u32)
        requires { length self.old + 22 ≤ 64 }
        ensures items { self.new ≡ self.old ++ (field_text first ++ field_text second) }
        ensures bound { length self.new ≤ length self.old + 22 }
    {
        self.put_behind(b" ", first);
        self.put_behind(b" ", second);
    }

    // All of them.
    pub(crate) fn as_slice(&self) -> &[u8]
        ensures items { result.now ≡ self.now }
        ensures bound { length result.now ≤ 64 }
    {
        self.bytes.as_slice()
    }
}
