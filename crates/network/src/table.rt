ghost use Rattle.std.specs.Prelude.{◌≡◌, length, replicate};
ghost use Rattle.network.specs.Tables.{filled};

// Writes a value into every entry. The library's `fill` asks for a clone that cannot fail, which
// `Copy` does not give here.
fn fill_all<T: Copy>(entries: &mut [T], value: T)
    ensures { entries.new ≡ replicate (length entries.old) value }
{
    for entry in entries.iter_mut() {
        *entry = value;
    }
}

// Writes a value into the first entries of a lent table; those beyond stay.
pub fn fill<T: Copy>(table: &mut [T], count: usize, value: T)
    ensures { table.new ≡ filled count value table.old }
{
    let end = count.min(table.len());
    fill_all(&mut table[..end], value);
}
