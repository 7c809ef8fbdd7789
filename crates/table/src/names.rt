// Names, "held and compared as a value".

ghost use Rattle.std.specs.Prelude.{◌≡◌};
ghost use Rattle.table.specs.Bytes.{same, zeros};

use crate::NAME_BYTES;

// Are two names the same.
pub fn same_name(a: &[u8; NAME_BYTES], b: &[u8; NAME_BYTES]) -> bool
    ensures { result ≡ same a.now b.now }
{
    a == b
}

// Is every byte zero. All are looked at, so that many are compared at a time.
pub fn zeros(bytes: &[u8]) -> bool
    ensures { result ≡ zeros bytes.now }
{
    let mut none = true;
    for b in bytes {
        none &= *b == 0;
    }
    none
}

// Is it "the all-zero name".
pub fn zero_name(a: &[u8; NAME_BYTES]) -> bool
    ensures { result ≡ zeros a.now }
{
    zeros(a)
}
