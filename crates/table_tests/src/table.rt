// The test of a table, once for pools, ranges and inputs: what it reads of a table, what a kind asks of rows, and the test. Tables are lent: nothing is copied.
ghost use Rattle.std.specs.Prelude.{◌≡◌, ◌&&◌, true, Bool, ℕ, min, leb, ◌≤◌, ◌<◌};
ghost use Rattle.tables.specs.Below.{all_below, all_from, row_ok};
ghost use Rattle.table_tests.specs.Rows.{NoneAbove, rows_tidy, rows_begin};

// A table of rows: used rows stand first.
pub trait Table {
    type Row: Copy;

    const SIZE: usize;

    ghost SIZE: { ℕ };

    ghost count: { Self → ℕ };

    ghost at: { Self → ℕ → Self.Row };

    ghost blank: { Self.Row → Bool };

    ghost same: { Self.Row → Self.Row → Bool };

    // what the definition calls tidy
    ghost tidy: { Self → Bool };

    fn count(&self) -> usize
        ensures { result ≡ count self.now };

    fn at(&self, k: usize) -> Self::Row
        requires { k < SIZE }
        ensures { result ≡ at self.now k };

    // Whether all numbers of a row are 0.
    fn blank(r: Self::Row) -> bool
        ensures { result ≡ blank r };

    fn same(a: Self::Row, b: Self::Row) -> bool
        ensures { result ≡ same a b };

    ghost tidy_is: { (t : Self) → tidy t ≡ rows_tidy SIZE blank (at t) (count t) };
}

// What a kind asks of the rows of its tables.
pub trait Rule<T: Table> {
    ghost good: { Self → T.Row → Bool };

    ghost fits: { Self → T.Row → T.Row → Bool };

    ghost reach: { T.Row → ℕ };

    ghost beyond: { ℕ → T.Row → Bool };

    ghost kin: { T.Row → T.Row → Bool };

    // what the definition calls sound
    ghost sound: { Self → T → Bool };

    // .. of each row
    fn good(&self, r: T::Row) -> bool
        ensures { result ≡ good self.now r };

    // .. of each two, `a` before `b`
    fn fits(&self, a: T::Row, b: T::Row) -> bool
        ensures { result ≡ fits self.now a b };

    // The same, with their domains compared before their numbers.
    fn fits_by_domain(&self, a: T::Row, b: T::Row) -> bool
        ensures { result ≡ fits self.now a b };

    // Whether two rows are of one domain.
    fn kin(a: T::Row, b: T::Row) -> bool
        ensures { result ≡ kin a b };

    // How far up a row reaches.
    fn reach(r: T::Row) -> u64
        ensures { result ≡ reach r };

    // Whether a row stands beyond all rows that reach no higher than `high`, and so fits behind each: the quicker test.
    fn beyond(high: u64, r: T::Row) -> bool
        ensures { result ≡ beyond high r };

    ghost clear: { (rule : Self) (a b : T.Row) (h : ℕ) → reach a ≤ h → beyond h b ≡ true → fits rule a b ≡ true };

    ghost sound_is: { (rule : Self) (t : T) → sound rule t ≡ T.tidy t && all_below (row_ok (good rule) (fits rule) (T.at t)) (T.count t) };
}

// Whether each row from `n` on is zero.
#[tactic(auto, using(tables::proofs::BelowLaws::from_start, tables::proofs::BelowLaws::from_next))]
pub fn unused_zero<T: Table>(t: &T, n: usize) -> bool
    requires { n ≤ T.SIZE }
    ensures { result ≡ all_from (λ k. T.blank (T.at t.now k)) n T.SIZE }
{
    let mut zeros = true;
    for k in n..T::SIZE {
        // no early end: so the compiler takes several rows at a time
        zeros &= T::blank(t.at(k));
    }
    zeros
}

// Whether a table has its count within its size and zeros in its unused rows.
pub fn tidy<T: Table>(t: &T) -> bool
    ensures { result ≡ T.tidy t.now }
{
    let n = t.count();
    n <= T::SIZE && unused_zero(t, n)
}

// Whether `r` fits behind each of the first `k` rows. Where the first of them is of another domain, most are: then domains tell rows apart sooner than numbers.
pub fn fits_behind<T: Table, R: Rule<T>>(rule: &R, t: &T, k: usize, r: T::Row) -> bool
    requires { k ≤ T.SIZE }
    ensures { result ≡ all_below (λ j. R.fits rule.now (T.at t.now j) r) k }
{
    if 0 < k && !R::kin(t.at(0), r) {
        return (0..k).all(|j| rule.fits_by_domain(t.at(j), r));
    }
    (0..k).all(|j| rule.fits(t.at(j), r))
}

// Whether row `k` is good and fits behind each row before it. None of those reaches above `high`.
pub fn row_ok<T: Table, R: Rule<T>>(rule: &R, t: &T, k: usize, high: u64) -> bool
    requires k_lt_size { k < T.SIZE }
    requires none_above { NoneAbove high (λ j. R.reach (T.at t.now j)) k }
    ensures { result ≡ row_ok (R.good rule.now) (R.fits rule.now) (T.at t.now) k }
{
    let r = t.at(k);
    rule.good(r) && (R::beyond(high, r) || fits_behind(rule, t, k, r))
}

// Whether each of the first `n` rows is good and fits behind those before it.
#[tactic(auto, using(tables::proofs::BelowLaws::all_start, tables::proofs::BelowLaws::all_more, crate::proofs::HighLaws::high_start, crate::proofs::HighLaws::high_more))]
pub fn rows_ok<T: Table, R: Rule<T>>(rule: &R, t: &T, n: usize) -> bool
    requires { n ≤ T.SIZE }
    ensures { result ≡ all_below (row_ok (R.good rule.now) (R.fits rule.now) (T.at t.now)) n }
{
    let mut high: u64 = 0;
    for k in 0..n {
        if !row_ok(rule, t, k, high) {
            return false;
        }
        high = high.max(R::reach(t.at(k)));
    }
    true
}

// Whether a table is sound by a rule.
pub fn sound<T: Table, R: Rule<T>>(rule: &R, t: &T) -> bool
    ensures { result ≡ R.sound rule.now t.now }
{
    tidy(t) && rows_ok(rule, t, t.count())
}

// Whether the first `m` rows of two tables are the same.
pub fn rows_same<T: Table>(a: &T, b: &T, m: usize) -> bool
    requires { m ≤ T.SIZE }
    ensures { result ≡ all_below (λ k. T.same (T.at a.now k) (T.at b.now k)) m }
{
    (0..m).all(
        |k: usize| -> bool
            requires { k < T.SIZE }
        { T::same(a.at(k), b.at(k)) },
    )
}

// Whether a table begins with the rows of another, in order: of a count that is too high all rows count.
pub fn begins_with<T: Table>(held: &T, owners: &T) -> bool
    ensures { result ≡ rows_begin T.SIZE T.same (T.at held.now) (T.at owners.now) (T.count held.now) (T.count owners.now) }
{
    let m = held.count().min(T::SIZE);
    m <= owners.count().min(T::SIZE) && rows_same(held, owners, m)
}
