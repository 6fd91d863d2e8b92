// Entries of one width in a lent slice of numbers: one is put in, one is cut out, or those that pass are kept.
// Each contract also says what this means for entries, whatever their width.
#![tactic(auto)]

ghost use Rattle.std.specs.Prelude.{◌≡◌, ℕ, ◌+◌, ◌-◌, ◌*◌, ◌≤◌, Bool, List, length};
ghost use Rattle.rows.specs.Rows.{RegionsStayLaid, Takes, Tests, rows, inserted, removed, kept, put_cells, cut_cells, kept_cells};

// Puts a row in at `start`, as what stands from there to `end` moves up.
pub fn put(region: &mut [u64], start: usize, end: usize, row: &[u64])
    requires { (start ≤ end) × (end + length row.now ≤ length region.old) }
    ensures cells { region.new ≡ put_cells start end row.now region.old }
    ensures entries { (w m c : ℕ) → start ≡ w * m → end ≡ w * c → length row.now ≡ w → m ≤ c → rows w (c + 1) region.new ≡ inserted (rows w c region.old) m row.now }
{
    region.copy_within(start..end, start + row.len());
    region[start..start + row.len()].copy_from_slice(row);
}

// Cuts the `width` numbers at `start` out, as what stands behind them up to `end` moves down; the freed ones are zero.
pub fn cut(region: &mut [u64], start: usize, end: usize, width: usize)
    requires { (start + width ≤ end) × (end ≤ length region.old) }
    ensures cells { region.new ≡ cut_cells start end width region.old }
    ensures entries { (m c : ℕ) → start ≡ width * m → end ≡ width * (c + 1) → m ≤ c → rows width c region.new ≡ removed (rows width (c + 1) region.old) m }
{
    region.copy_within(start + width..end, start);
    region[end - width..end].fill(0);
}

// Keeps those of the first `count` entries that pass, in their order; the freed ones are zero. Says how many there are.
// Stays: places of entries, since no method of a slice moves what passes together inside it.
#[tactic(auto, using(crate::proofs::Keeping::next_fits, crate::proofs::Keeping::starts_before))]
pub fn keep<F: Fn(&[u64]) -> bool>(
    region: &mut [u64],
    width: usize,
    count: usize,
    which: F,
) -> usize
    requires fits { width * count ≤ length region.old }
    requires takes { Takes F.Fn which width }
    ensures stay { (p : List ℕ → Bool) → Tests F.Fn which width p → result ≡ length (kept p (rows width count region.old)) }
    ensures cells { (p : List ℕ → Bool) → Tests F.Fn which width p → region.new ≡ kept_cells p width count region.old }
    ensures entries { (p : List ℕ → Bool) → Tests F.Fn which width p → rows width result region.new ≡ kept p (rows width count region.old) }
{
    let mut stay = 0;
    for place in 0..count {
        let from = width * place;
        if which(&region[from..from + width]) {
            region.copy_within(from..from + width, width * stay);
            stay += 1;
        }
    }
    region[width * stay..width * count].fill(0);
    stay
}

// A region of entries with zeros behind them stays one, whatever of these is done.
#[tactic(auto, using(crate::proofs::Laid::regions_stay_laid))]
pub fn regions_stay_laid_holds()
    ensures { RegionsStayLaid }
{}
