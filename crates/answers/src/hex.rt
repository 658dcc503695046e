// Lower-case hexadecimal text, two digits a byte. (Digits of our own and not the kit's `hex`: its words are not those that frames are defined by, so it would take a proof more.)
ghost use Rattle.std.specs.Prelude.{◌≡◌, ℕ, ◌<◌, List, [], ◌∷◌, ◌++◌, OnOk};
ghost use Rattle.wire.specs.Bytes.{hex_digit, hexed, big_endian};
ghost use Rattle.wire.specs.Kind.{kind_byte};

use std::alloc::AllocError;
use wire::kind::Kind;

// A part of a line, which is written as some bytes.
pub(crate) trait Part {
    ghost bytes: { Self → List ℕ };

    // Adds the part to a text.
    fn write(&self, out: &mut Vec<u8>) -> Result<(), AllocError>
        ensures { OnOk result (out.new.items ≡ out.old.items ++ hexed (bytes self.now)) };
}

// The digit of a value below 16.
fn digit_of(value: u8) -> u8
    requires { value < 16 }
    ensures { result ≡ hex_digit value }
{
    if value < 10 {
        b'0' + value
    } else {
        b'a' + (value - 10)
    }
}

impl Part for u8 {
    ghost bytes = { λ byte. byte ∷ [] };

    fn write(&self, out: &mut Vec<u8>) -> Result<(), AllocError> {
        out.extend_from_slice(&[digit_of(*self / 16), digit_of(*self % 16)])
    }
}

impl<const N: usize> Part for [u8; N] {
    ghost bytes = { λ bytes. bytes };

    fn write(&self, out: &mut Vec<u8>) -> Result<(), AllocError> {
        for byte in self {
            byte.write(out)?;
        }
        Ok(())
    }
}

// Numbers are written the highest byte first. (An impl for each width: std has no bound for `to_be_bytes`.)
impl Part for u16 {
    ghost bytes = { big_endian 2 };

    fn write(&self, out: &mut Vec<u8>) -> Result<(), AllocError> {
        self.to_be_bytes().write(out)
    }
}

impl Part for u32 {
    ghost bytes = { big_endian 4 };

    fn write(&self, out: &mut Vec<u8>) -> Result<(), AllocError> {
        self.to_be_bytes().write(out)
    }
}

impl Part for u64 {
    ghost bytes = { big_endian 8 };

    fn write(&self, out: &mut Vec<u8>) -> Result<(), AllocError> {
        self.to_be_bytes().write(out)
    }
}

impl Part for Kind {
    ghost bytes = { λ kind. kind_byte kind ∷ [] };

    fn write(&self, out: &mut Vec<u8>) -> Result<(), AllocError> {
        u8::from(*self).write(out)
    }
}

impl Part for () {
    ghost bytes = { λ _. [] };

    fn write(&self, _out: &mut Vec<u8>) -> Result<(), AllocError> {
        Ok(())
    }
}

// One part and then another.
impl<A: Part, B: Part> Part for (A, B) {
    ghost bytes = { λ both. A.bytes both.0 ++ B.bytes both.1 };

    fn write(&self, out: &mut Vec<u8>) -> Result<(), AllocError> {
        self.0.write(out)?;
        self.1.write(out)
    }
}
