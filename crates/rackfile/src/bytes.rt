// The first layer: fields of bytes, from the front of what is left of the input.
ghost use Rattle.std.specs.Prelude.{◌≡◌};
ghost use Rattle.rackfile.specs.declared.fault.BytesFault.TheVariants.{Cut};
ghost use Rattle.rackfile.specs.Reading.{Opens, Reads, Ends, place_in, field, take_byte, take_word, take_part};

use crate::fault::BytesFault;

// What is left of an input, and the length of the whole input.
#[derive(Clone, Copy, Debug)]
pub(crate) struct Reader<'a> {
    pub(crate) whole: usize,
    pub(crate) left: &'a [u8],
}

impl<'a> Reader<'a> {
    // A reader over an input, unless it is longer than a file may be.
    pub(crate) fn over(input: &'a [u8]) -> Result<Reader<'a>, BytesFault>
        ensures { Opens input.now result }
    {
        if input.len() > 65536 {
            return Err(BytesFault::TooLong);
        }
        Ok(Reader {
            whole: input.len(),
            left: input,
        })
    }

    // The place of the next byte.
    pub(crate) fn place(&self) -> usize
        ensures { result ≡ place_in self.now.whole self.now.left.now }
    {
        self.whole.saturating_sub(self.left.len())
    }

    // The fault of a field that is cut short.
    pub(crate) fn cut(&self) -> BytesFault
        ensures { result ≡ Cut self.now.whole }
    {
        BytesFault::Cut { place: self.whole }
    }

    // A field of N bytes.
    fn take<const N: usize>(&mut self) -> Result<[u8; N], BytesFault>
        ensures { Reads (λ bytes. bytes) self.old self.new result (field self.old.whole (take_part N self.old.left.now)) }
    {
        let (bytes, rest) = self.left.split_first_chunk::<N>().ok_or(self.cut())?;
        self.left = rest;
        Ok(*bytes)
    }

    // One byte.
    pub(crate) fn byte(&mut self) -> Result<u8, BytesFault>
        ensures { Reads (λ b. b) self.old self.new result (field self.old.whole (take_byte self.old.left.now)) }
    {
        let [b] = self.take::<1>()?;
        Ok(b)
    }

    // A number of 32 bits, the most significant byte first.
    pub(crate) fn word(&mut self) -> Result<u32, BytesFault>
        ensures { Reads (λ n. n) self.old self.new result (field self.old.whole (take_word self.old.left.now)) }
    {
        Ok(u32::from_be_bytes(self.take::<4>()?))
    }

    // So many bytes, as a part of the input.
    pub(crate) fn part(&mut self, n: usize) -> Result<&'a [u8], BytesFault>
        ensures { Reads (λ part. part.now) self.old self.new result (field self.old.whole (take_part n self.old.left.now)) }
    {
        let (part, rest) = self.left.split_at_checked(n).ok_or(self.cut())?;
        self.left = rest;
        Ok(part)
    }

    // Nothing may follow what was read.
    pub(crate) fn end(&self) -> Result<(), BytesFault>
        ensures { Ends self.now result }
    {
        if self.left.is_empty() {
            Ok(())
        } else {
            Err(BytesFault::Trailing {
                place: self.place(),
            })
        }
    }
}
