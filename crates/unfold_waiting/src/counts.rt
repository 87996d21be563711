// A working copy of the counts, from which they are spent.
ghost use Rattle.std.specs.Prelude.{◌≡◌, ◌≤◌, length, take};

// Copies as many counts as the copy has words.
pub fn copy_counts(counts: &[u16], copy: &mut [u16])
    requires { length copy.old ≤ length counts.now }
    ensures { copy.new ≡ take (length copy.old) counts.now }
{
    copy.copy_from_slice(&counts[..copy.len()]);
}
