// The leaves as C functions, for the host tests alone: no part of the shipped library.
#![tactic(auto)]

ghost use Rattle.std.specs.Prelude.{◌≡◌, length};
ghost use Rattle.field.specs.Digits.{digits_fault, value};
ghost use Rattle.field.specs.Text.{text_fault, filled_fault, text_in, numeric_like};
ghost use Rattle.field_outward.specs.Outward.{outward_fault};
ghost use Rattle.field_outward.specs.Inward.{inward_fault, suffix_fault};

#[unsafe(no_mangle)]
pub extern "C" fn leaf_digits_fault(s: &[u8]) -> usize
    ensures { result ≡ digits_fault s.now }
{
    field_test::digits_fault(s)
}

#[unsafe(no_mangle)]
pub extern "C" fn leaf_text_fault(s: &[u8]) -> usize
    ensures { result ≡ text_fault s.now }
{
    field_test::text_fault(s)
}

#[unsafe(no_mangle)]
pub extern "C" fn leaf_filled_fault(s: &[u8]) -> usize
    ensures { result ≡ filled_fault s.now }
{
    field_test::filled_fault(s)
}

#[unsafe(no_mangle)]
pub extern "C" fn leaf_value(s: &[u8]) -> usize
    ensures { result ≡ value s.now }
{
    field_read::value_of(s)
}

// The text's length: where it stands is known, since it starts at `start`.
#[unsafe(no_mangle)]
pub extern "C" fn leaf_text_length(rec: &[u8], start: usize, end: usize) -> usize
    ensures { result ≡ length (text_in rec.now start end) }
{
    field_read::read_text(rec, start, end).len()
}

#[unsafe(no_mangle)]
pub extern "C" fn leaf_numeric_like(s: &[u8]) -> bool
    ensures { result ≡ numeric_like s.now }
{
    field_read::is_numeric_like(s)
}

#[unsafe(no_mangle)]
pub extern "C" fn leaf_outward_fault(code: &[u8]) -> usize
    ensures { result ≡ outward_fault code.now }
{
    field_outward::outward_fault(code)
}

#[unsafe(no_mangle)]
pub extern "C" fn leaf_inward_fault(code: &[u8]) -> usize
    ensures { result ≡ inward_fault code.now }
{
    field_inward::inward_fault(code)
}

#[unsafe(no_mangle)]
pub extern "C" fn leaf_suffix_fault(suffix: &[u8]) -> usize
    ensures { result ≡ suffix_fault suffix.now }
{
    field_inward::suffix_fault(suffix)
}
