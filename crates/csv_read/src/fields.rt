// Where a field ends.
ghost use Rattle.std.specs.Prelude.{◌≡◌, ◌+◌, ◌<◌, length, get_or, drop};
ghost use Rattle.csv_read.specs.Cut.{ends_field, field_end};

// Whether a field ends at a byte: a comma, or CR with LF behind it.
fn ends_field(csv: &[u8], i: usize) -> bool
    requires { i < length csv.now }
    ensures { result ≡ ends_field (get_or csv.now i 0) (drop (i + 1) csv.now) }
{
    let b = csv[i];
    if b == 13 {
        return file_record::byte_of(csv, i + 1) == 10;
    }
    b == 44
}

// Where the field that begins at a place ends.
pub fn field_end(csv: &[u8], at: usize) -> usize
    ensures { result ≡ field_end csv.now at }
{
    for i in at..csv.len() {
        if ends_field(csv, i) {
            return i;
        }
    }
    at.max(csv.len())
}
