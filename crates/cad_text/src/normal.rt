// Equality and order by NFC forms.
ghost use Rattle.std.specs.Prelude.{◌≡◌, ◌↔◌, IsTrue, IfOk};
ghost use Rattle.std.specs.Ordering.{nat_cmp};
ghost use Rattle.std.specs.Cmp.Lexicographic.{slice_cmp};
ghost use Rattle.cad_text.specs.Texts.{normal_form};

use std::alloc::{AllocError, Global};
use std::cmp::Ordering;
use unicode_normalization::{is_nfc, to_nfc};

/// Whether two texts have one NFC form.
pub fn equal(alloc: Global, a: &str, b: &str) -> Result<bool, AllocError>
    ensures { IfOk result (λ same. IsTrue same ↔ (normal_form a.now ≡ normal_form b.now)) }
{
    if is_nfc(alloc, a)? && is_nfc(alloc, b)? {
        return Ok(a == b);
    }
    let left = to_nfc(alloc, a)?;
    let right = to_nfc(alloc, b)?;
    Ok(left.as_str() == right.as_str())
}

/// The order of the bytes of two texts' NFC forms.
pub fn compare(alloc: Global, a: &str, b: &str) -> Result<Ordering, AllocError>
    ensures { IfOk result (λ order. order ≡ slice_cmp nat_cmp (normal_form a.now) (normal_form b.now)) }
{
    let left = to_nfc(alloc, a)?;
    let right = to_nfc(alloc, b)?;
    Ok(left.as_str().cmp(right.as_str()))
}
