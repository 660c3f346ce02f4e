// The table of a build. Threads gather part after part of the values that the nodes show; while they gather one, another thread puts the part
// before it behind the table's list and into the digest of its file.
ghost use Rattle.std.specs.Prelude.{◌≡◌, ℕ, ◌++◌, ◌<◌, ◌≤◌, Some, IfOk, length, slice_get};
ghost use Rattle.dob_pieces.specs.declared.profile.Family.{Family};
ghost use Rattle.dob_rank.specs.Families.{classes_of};
ghost use Rattle.dob_share.specs.declared.share.Share.{Share as Shower};
ghost use Rattle.dob_share.specs.Owners.{owner_of};
ghost use Rattle.dob_share.specs.Shares.{IsOwn};
ghost use Rattle.dob_dbfile.specs.Format.{digest_of};
ghost use Rattle.dob_gather.specs.Owners.{AreOwners, IsShownByOwner, IsCodeShown, AreShownBelow};
ghost use Rattle.dob_gather.specs.Scans.{AreFrom};

use dob_classes::Classes;
use dob_dbfile::FileHasher;
use dob_lists::{SegmentLength, Segments};
use dob_pieces::{Family, Memory};
use dob_share::{Share, owner};
use dob_value::{Table, Value, code_of_value};
use rayon::prelude::*;
use std::alloc::Global;
use std::thread;
use std::thread::Threads;

// How many classes are gone over before their values join the table: enough that the threads have work, and so few that what
// stands beside the table is small.
pub(crate) const AT_A_TIME: u64 = 1 << 20;

/// A table with the digest of its file.
#[derive(Drop)]
pub struct Gathered {
    pub table: Table,
    pub digest: [u8; 32],
    ghost digested: { digest ≡ digest_of table },
}

// The codes of the first classes, which are hashed.
#[derive(Drop)]
struct Hashed {
    codes: Segments<u16>,
    hasher: FileHasher,
}

// What is gathered: the codes that are hashed, and those of the classes behind them, which aren't yet.
#[derive(Drop)]
struct Parts {
    hashed: Hashed,
    part: Vec<u16>,
}

/// The table of the values that the nodes' shares show, with the digest of its file. Threads gather its parts.
pub fn gather(
    rt: &(impl Threads + Sync),
    alloc: Global,
    classes: Classes,
    shares: &[Share],
) -> Result<Gathered, Memory>
    requires some { 0 < length shares.now }
    requires owners { AreOwners classes.family (length shares.now) shares.now }
    ensures family { IfOk result (λ gathered. gathered.table.family ≡ classes.family) }
    ensures values { IfOk result (λ gathered.
        AreShownBelow (length shares.now) (classes_of classes.family) shares.now gathered.table.values) }
{
    let count = classes.class_count();
    let hashed = Hashed::none(alloc, classes.family, count)?;
    let mut class = count.min(AT_A_TIME);
    let part = codes_of(rt, alloc, shares, 0, class)?;
    let mut parts = Parts { hashed, part };
    'parts: while class < count {
        let end = count.min(class + AT_A_TIME);
        parts = parts.next(rt, alloc, shares, class, end)?;
        class = end;
    }
    let Parts { hashed, part } = parts;
    let Hashed { codes, hasher } = hashed.with(&part)?;
    let digest = hasher.end();
    let table = Table::new(classes, codes);
    Ok(Gathered { table, digest })
}

impl Hashed {
    ghost use Rattle.dob_pieces.specs.declared.profile.Family.{Family as Known};
    ghost use Rattle.dob_gather.specs.Gathering.{AreHashed};
    ghost use Rattle.std.specs.Prelude.{[]};

    // No code is hashed yet of a table of the family, which has `count` classes.
    fn none(alloc: Global, family: Family, count: u64) -> Result<Hashed, Memory>
        ensures codes { IfOk result (λ hashed. hashed.codes ≡ []) }
        ensures hashed { IfOk result (AreHashed family count) }
    {
        let hasher = FileHasher::begin(alloc, family, count)?;
        let codes = Segments::new(alloc, SegmentLength::longest());
        Ok(Hashed { codes, hasher })
    }

    // Takes the codes of the next classes.
    fn with(self, part: &[u16]) -> Result<Hashed, Memory>
        ensures codes { IfOk result (λ hashed. hashed.codes ≡ self.codes ++ part.now) }
        ensures hashed { (family : Known) (count : ℕ) → AreHashed family count self → IfOk result (AreHashed family count) }
    {
        let Hashed { mut codes, hasher } = self;
        let first = codes.len();
        codes.append(part)?;
        let hasher = hasher.with(&codes, first);
        Ok(Hashed { codes, hasher })
    }
}

impl Parts {
    ghost use Rattle.dob_pieces.specs.declared.profile.Family.{Family as Known};
    ghost use Rattle.dob_gather.specs.Gathering.{AreHashed, Takes};

    // Takes the part that is gathered, while threads gather the next one: the codes of the classes from `first` on, before `end`.
    fn next(
        self,
        rt: &(impl Threads + Sync),
        alloc: Global,
        shares: &[Share],
        first: u64,
        end: u64,
    ) -> Result<Parts, Memory>
        requires order { first ≤ end }
        requires some { 0 < length shares.now }
        requires owned { (family : Known) × (end ≤ classes_of family) × AreOwners family (length shares.now) shares.now }
        ensures codes { IfOk result (λ next. next.hashed.codes ≡ self.hashed.codes ++ self.part.items) }
        ensures hashed { (family : Known) (count : ℕ) → AreHashed family count self.hashed → IfOk result (λ next. AreHashed family count next.hashed) }
        ensures part { IfOk result (λ next. AreFrom (IsCodeShown (length shares.now) shares.now) first end next.part.items) }
    {
        let Parts { hashed, part } = self;
        let (hashed, part) = thread::join(
            rt,
            move || -> Result<Hashed, Memory>
                ensures { Takes hashed part.items result }
            { hashed.with(&part) },
            move || -> Result<Vec<u16>, Memory>
                requires order { first ≤ end }
                requires some { 0 < length shares.now }
                requires owned { (family : Known) × (end ≤ classes_of family) × AreOwners family (length shares.now) shares.now }
                ensures { IfOk result (λ codes. AreFrom (IsCodeShown (length shares.entry.now) shares.entry.now) first end codes.items) }
            { codes_of(rt, alloc, shares, first, end) },
        );
        Ok(Parts {
            hashed: hashed?,
            part: part?,
        })
    }
}

// The codes of the values that the shares show for the classes from `first` on, before `end`.
fn codes_of(
    rt: &(impl Threads + Sync),
    alloc: Global,
    shares: &[Share],
    first: u64,
    end: u64,
) -> Result<Vec<u16>, Memory>
    requires order { first ≤ end }
    requires some { 0 < length shares.now }
    requires owned { (family : Family) × (end ≤ classes_of family) × AreOwners family (length shares.now) shares.now }
    ensures { IfOk result (λ codes. AreFrom (IsCodeShown (length shares.now) shares.now) first end codes.items) }
{
    let codes = (first..end)
        .into_par_iter()
        .map(
            |class: u64| -> u16
                requires some { 0 < length shares.now }
                requires owned { (family : Family) × (class < classes_of family) × AreOwners family (length shares.now) shares.now }
                ensures { IsCodeShown (length shares.entry.now) shares.entry.now class result }
            { code_of(shares, class) },
        )
        .collect::<Vec<_>>(rt, alloc)?;
    Ok(codes)
}

// The code of the value that the class's owner shows.
fn code_of(shares: &[Share], class: u64) -> u16
    requires some { 0 < length shares.now }
    requires owned { (family : Family) × (class < classes_of family) × AreOwners family (length shares.now) shares.now }
    ensures { IsCodeShown (length shares.now) shares.now class result }
{
    code_of_value(value_of(shares, class))
}

// The value that the class's owner shows.
fn value_of(shares: &[Share], class: u64) -> Value
    requires some { 0 < length shares.now }
    requires own { (share : Shower) → slice_get shares.now (owner_of (length shares.now) class) ≡ Some share → IsOwn share class }
    ensures { IsShownByOwner (length shares.now) shares.now class result }
{
    let node = owner(class, shares.len());
    shares[node].value(class)
}
