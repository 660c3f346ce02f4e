// The order in which the classes of a table are gone over: that of their numbers, or one that a seed makes.
ghost use Rattle.std.specs.Prelude.{◌≡◌, ◌<◌, ◌≤◌, ◌^◌};
ghost use Rattle.dob_probe.specs.Walks.{IsOrder, begin_at, class_on, place_in, places_in};

use dob_shuffle::Shuffle;

/// Which classes are gone over, and in which order.
#[derive(Clone, Copy)]
pub struct ClassOrder {
    /// The seed of the order, which is that of a `Shuffle` of the classes. Without one they are gone over in the order of their numbers.
    pub seed: Option<u64>,
    /// Only the classes after this one are gone over, all if there is none, and none if the table has no such class.
    pub after: Option<u64>,
}

/// The shuffle of so many classes that the seed makes, if there is one.
pub(crate) fn order_of(seed: Option<u64>, classes: u64) -> Option<Shuffle>
    requires { classes < 2 ^ 63 }
    ensures { IsOrder seed classes result }
{
    match seed {
        None => None,
        Some(seed) => {
            let shuffle = Shuffle::new(seed, classes);
            Some(shuffle)
        }
    }
}

pub(crate) fn places_in(order: &Option<Shuffle>, classes: u64) -> u64
    ensures { result ≡ places_in order.now classes }
{
    match order {
        None => classes,
        Some(shuffle) => shuffle.places(),
    }
}

/// The class at the place; one that the table doesn't have at the places that a shuffle has more.
pub(crate) fn class_on(order: &Option<Shuffle>, classes: u64, place: u64) -> u64
    requires { place < places_in order.now classes }
    ensures { result ≡ class_on order.now place }
{
    match order {
        None => place,
        Some(shuffle) => shuffle.number_at(place),
    }
}

/// The first place behind the class that is named, if one is.
pub(crate) fn begin_at(after: Option<u64>, order: &Option<Shuffle>, classes: u64) -> u64
    requires { classes ≤ places_in order.now classes }
    ensures { result ≡ begin_at after order.now classes }
{
    match after {
        None => 0,
        Some(class) => {
            if class < classes {
                place_in(order, classes, class) + 1
            } else {
                places_in(order, classes)
            }
        }
    }
}

fn place_in(order: &Option<Shuffle>, classes: u64, class: u64) -> u64
    requires { class < places_in order.now classes }
    ensures place { result ≡ place_in order.now class }
    ensures within { result < places_in order.now classes }
{
    match order {
        None => class,
        Some(shuffle) => shuffle.place_of(class),
    }
}
