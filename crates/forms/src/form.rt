// What a line of a text can say.
use calendar::Day;
use common::PlaceNumber;

// The word that begins a form.
#[derive(Clone, Copy, PartialEq, Eq, Debug)]
pub enum Keyword {
    Bring,
    Own,
    Link,
    Unlink,
    Label,
    Explain,
    List,
    Discard,
}

// L are the labels, P the passages.
#[derive(Clone, Copy, PartialEq, Eq, Debug)]
pub enum Form<L, P> {
    Bring(PlaceNumber),
    Own(PlaceNumber, L),
    Link(PlaceNumber, PlaceNumber, P),
    Unlink(PlaceNumber, PlaceNumber),
    Label(PlaceNumber),
    Explain(PlaceNumber, Day),
    List(Day),
    Discard(PlaceNumber, Day),
}
