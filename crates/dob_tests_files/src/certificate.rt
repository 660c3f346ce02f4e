// Certificates made of whole tables: which claims they prove of each class, by one thread and by several. The values of these tables are those that others
// found: files made of them have digests from outside. tests/certificates.sh asks of spoilt ones.
use crate::sets::family;
use dob_certificate::{
    Certificate, Claim, EVER, Entries, Entry, ListKind, is_lost_within, is_won_within, verify,
};
use dob_check::{Unwatched, verify_watched};
use dob_pieces::Profile;
use dob_value::{Table, Value, sweep_table};
use std::process::Abort;
use std::thread::Threads;

// No class of lions alone is won or lost in more plies.
const LONGEST: u16 = 7;

// The plies of a class with that value in a list of that kind, if it stands there.
fn plies_in(kind: ListKind, value: Value) -> Option<u16> {
    match (kind, value) {
        (ListKind::Lost, Value::Loss(plies)) => Some(plies),
        (ListKind::Held, Value::Loss(plies)) => plies.checked_sub(1),
        (ListKind::Lost, Value::Win(_) | Value::Draw) => None,
        (ListKind::Held, Value::Win(_) | Value::Draw) => Some(EVER),
    }
}

// The list of that kind with an entry for each class of the table that may have one.
fn entries_of(rt: &(impl Abort + AllocGlobal), table: &Table, kind: ListKind) -> Entries {
    let mut list = Vec::new(rt.alloc());
    for class in 0..table.class_count() {
        if let Some(plies) = plies_in(kind, table.value(class)) {
            let class = u32::try_from(class).expect(rt, "a class");
            list.push(Entry { class, plies }).expect(rt, "memory");
        }
    }
    Entries::from_vec(list).expect(rt, "ascending classes")
}

fn certificate_of(rt: &(impl Abort + AllocGlobal), table: &Table) -> Certificate {
    Certificate {
        lost: entries_of(rt, table, ListKind::Lost),
        held: entries_of(rt, table, ListKind::Held),
    }
}

// Whether the claim is true of what has that value.
fn is_true(claim: Claim, value: Value) -> bool {
    match (claim, value) {
        (Claim::Exactly(claimed), _) => claimed == value,
        (Claim::LostWithin(most), Value::Loss(plies)) => plies <= most,
        (Claim::WonWithin(most), Value::Win(plies)) => plies <= most,
        (Claim::LostWithin(_) | Claim::WonWithin(_), _) => false,
    }
}

// The claim of the class is proved where it is true, by one thread and by several.
fn is_judged(
    rt: &(impl Abort + AllocGlobal + Threads + Sync),
    table: &Table,
    certificate: &Certificate,
    class: u64,
    claim: Claim,
) {
    let classes = table.classes();
    assert!(rt; class < classes.class_count() && class < table.class_count());
    let position = classes.class_at(class);
    let is_so = is_true(claim, table.value(class));
    let by_one = verify(classes, certificate, &position, claim);
    assert!(rt; by_one.is_ok() == is_so);
    let by_several = verify_watched(rt, classes, certificate, &position, claim, &Unwatched);
    assert!(rt; by_several.is_ok() == is_so);
}

// Within those plies the class is lost, or won, where it is by its value.
fn is_bounded(rt: &impl Abort, table: &Table, certificate: &Certificate, class: u64, plies: u16) {
    let classes = table.classes();
    assert!(rt; class < classes.class_count() && class < table.class_count());
    let position = classes.class_at(class);
    let value = table.value(class);
    let lost = is_lost_within(classes, certificate, &position, plies);
    assert!(rt; lost == is_true(Claim::LostWithin(plies), value));
    let won = is_won_within(classes, certificate, &position, plies);
    assert!(rt; won == is_true(Claim::WonWithin(plies), value));
}

// Each claim of so many plies is judged so.
fn are_judged(
    rt: &(impl Abort + AllocGlobal + Threads + Sync),
    table: &Table,
    certificate: &Certificate,
    class: u64,
    plies: u16,
) {
    for claim in [
        Claim::Exactly(Value::Draw),
        Claim::Exactly(Value::Loss(plies)),
        Claim::Exactly(Value::Win(plies)),
        Claim::LostWithin(plies),
        Claim::WonWithin(plies),
    ] {
        is_judged(rt, table, certificate, class, claim);
    }
    is_bounded(rt, table, certificate, class, plies);
}

#[test]
fn each_claim_of_lions_alone(rt: HostRuntime) {
    for profile in [Profile::A, Profile::B] {
        let table = sweep_table(rt.alloc(), family(&rt, "000", profile)).expect(&rt, "a table");
        let certificate = certificate_of(&rt, &table);
        for class in 0..54 {
            for plies in 0..=LONGEST {
                are_judged(&rt, &table, &certificate, class, plies);
            }
        }
    }
}
