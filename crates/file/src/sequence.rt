// What the sequence compares, where that is the front of a record.
ghost use Rattle.std.specs.Prelude.{◌≡◌};
ghost use Rattle.field.specs.Text.{part};
ghost use Rattle.file_compare.specs.Order.{above};

// Whether the first `n` bytes of a record are above those of the one before.
pub fn is_front_above(n: usize, before: &[u8], rec: &[u8]) -> bool
    ensures { result ≡ above (part rec.now 0 n) (part before.now 0 n) }
{
    let order = file_compare::order_of(
        file_record::part_of(rec, 0, n),
        file_record::part_of(before, 0, n),
    );
    order.is_gt()
}
