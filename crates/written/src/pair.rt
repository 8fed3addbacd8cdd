// The pair of two written kinds that share no word is a written kind.
use super::kind::Written;
use kinds::Pair;
use parts::{Before, Both};

impl<A: Written, B: Written> Written for Pair<A, B>
where
    A::Text: Before<B::Text>,
    A::PassageText: Before<B::PassageText>,
{
    type Text = Both<A::Text, B::Text>;

    type PassageText = Both<A::PassageText, B::PassageText>;
}
