// The packed form written: records put after what was written, runs set to one value.

#![tactic(auto)]

ghost use Rattle.std.specs.Prelude.{◌≡◌, ◌∷◌, ◌++◌, ◌+◌, ◌*◌, ◌-◌, ◌≤◌, length, get_or, take, replicate};
ghost use Rattle.std.proofs.lemmas.List.Edits.{sets};
ghost use Rattle.rules.specs.Numbers.{number_bytes, numbers_bytes};
ghost use Rattle.bytes_write.specs.Put.{Put};

// Four bytes from an offset on.
fn put_number(out: &mut [u8], at: usize, n: u32)
    requires { at + 4 ≤ length out.old }
    ensures { out.new ≡ sets out.old at (number_bytes n) }
{
    out[at..at + 4].copy_from_slice(&n.to_le_bytes());
}

// Four bytes for each number from an offset on.
fn put_numbers(out: &mut [u8], at: usize, ns: &[u32])
    requires { at + 4 * length ns.now ≤ length out.old }
    ensures { out.new ≡ sets out.old at (numbers_bytes ns.now) }
{
    for (i, n) in ns.iter().enumerate() {
        put_number(out, at + 4 * i, *n);
    }
}

// A record after the bytes that were used, and where the next one goes; or nothing where it has no room.
pub fn put_record(out: &mut [u8], used: usize, mark: &[u8; 2], ns: &[u32]) -> Option<usize>
    ensures { Put result out.old out.new used (get_or mark.now 0 0 ∷ get_or mark.now 1 0 ∷ numbers_bytes ns.now) }
{
    let room = out.len().checked_sub(used)?.checked_sub(2)?;
    if room / 4 < ns.len() {
        return None;
    }
    out[used] = mark[0];
    out[used + 1] = mark[1];
    put_numbers(out, used + 2, ns);
    Some(used + 2 + 4 * ns.len())
}

// A value from an offset on, to the end. The library's `fill` asks that no clone fails, which isn't known of every `Copy` item.
pub fn fill_from<T: Copy>(row: &mut [T], from: usize, value: T)
    ensures { row.new ≡ take from row.old ++ replicate (length row.old - from) value }
{
    for i in from..row.len() {
        row[i] = value;
    }
}
