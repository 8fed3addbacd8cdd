// The calls of a store.
ghost use Rattle.std.specs.Prelude.{◌≡◌, ℕ, ◌<◌, true, false, length, drop, IfOk, Some, None, MatchResult};
ghost use Rattle.common.specs.Checks.{Passed, Refused};
ghost use Rattle.paths.specs.Ledger.{IsJoin, AreJoins};
ghost use Rattle.law.specs.Calls.{is_out, bring as bringing, label as asking, own as owning, unlink as unlinking, link as linking};
ghost use Rattle.law.specs.State.{IsLinked, checks};
ghost use Rattle.tables.specs.Columns.{present_in};
ghost use Rattle.store.specs.View.{permit_in, view};
ghost use Rattle.store.specs.Making.{Makes};
ghost use Rattle.store.specs.Calls.{Accepts, EditAccepts, Refuses, Keeps, end_checks};

use crate::store::Store;
use common::{PlaceNumber, Refusal};
use editing::{link_in, own_in, unlink_in};
use kinds::LabelKind;
use tables::{Columns, Tables, clear, read};

impl<'a, K: LabelKind> Store<'a, K> {
    // Makes a store of n places for at most m links. Where the sizes or the tables are refused, the store has no places, and `made` says why.
    pub fn new(tables: &'a mut Tables<K::Row, K::PassageRow>, n: usize, m: usize) -> Store<'a, K>
        ensures { Makes K.means tables.old n m result }
    {
        if let Err(e) = tables.check(n, m) {
            return Store {
                columns: Columns::new(tables),
                n: 0,
                m: 0,
                permit: None,
                made: Err(e),
            };
        }
        let mut columns = Columns::new(tables);
        clear::<K>(&mut columns, n, m);
        Store {
            columns,
            n,
            m,
            permit: None,
            made: Ok(()),
        }
    }
}

// A call tests what its table of checks says, line by line and in that order; `ends` has the first four lines of both links.
impl<K: LabelKind> Store<'_, K> {
    // Whether the store was made, or why it was refused.
    pub fn made(&self) -> Result<(), Refusal>
        ensures { result ≡ self.now.made }
    {
        self.made
    }

    pub(crate) fn permit_is_out(&self) -> bool
        ensures { result ≡ is_out (permit_in self.now.permit) }
    {
        self.permit.is_some()
    }

    pub(crate) fn is_present(&self, p: PlaceNumber) -> bool
        requires { p.0 < self.now.n }
        ensures { result ≡ present_in self.now.n self.now.columns.tables.now.present.items p.0 }
    {
        read(&self.columns.tables.present, p)
    }

    // Whether a link leads from u to v.
    fn is_linked(&self, u: PlaceNumber, v: PlaceNumber) -> bool
        requires { u.0 < self.now.n }
        ensures yes { result ≡ true → IsLinked (view K.means self.now).ledger.links u.0 v.0 }
        ensures no { result ≡ false → IsLinked (view K.means self.now).ledger.links u.0 v.0 → ⊥ }
    {
        self.columns.is_linked(u, v)
    }

    // How many links there are.
    fn count(&self) -> usize
        requires { 0 < self.now.n }
        ensures { result ≡ length (view K.means self.now).ledger.links }
    {
        self.columns.count()
    }

    // The checks that link and unlink share: no permit is out, the list is long enough, and both places are there and present.
    fn ends(&self, u: PlaceNumber, v: PlaceNumber, room: usize) -> Result<(), Refusal>
        ensures { MatchResult result (λ _. Passed (end_checks (view K.means self.now) u.0 v.0 room)) (λ e. Refused (end_checks (view K.means self.now) u.0 v.0 room) e) }
    {
        if self.permit_is_out() {
            return Err(Refusal::PermitOut);
        }
        if room < self.n {
            return Err(Refusal::ShortList);
        }
        if u.index() >= self.n || v.index() >= self.n {
            return Err(Refusal::NoSuchPlace);
        }
        if !self.is_present(u) {
            return Err(Refusal::Absent);
        }
        if !self.is_present(v) {
            return Err(Refusal::Absent);
        }
        Ok(())
    }

    // Makes an absent place present.
    pub fn bring(&mut self, p: PlaceNumber) -> Result<(), Refusal>
        ensures told { MatchResult result (λ _. Accepts K.means.kind K.means.free (view K.means self.old) (bringing p.0) (view K.means self.new)) (λ e. Refuses K.means.kind K.means.free (view K.means self.old) (bringing p.0) e (view K.means self.new)) }
        ensures kept { Keeps self.old self.new }
    {
        if self.permit_is_out() {
            return Err(Refusal::PermitOut);
        }
        if p.index() >= self.n {
            return Err(Refusal::NoSuchPlace);
        }
        if self.is_present(p) {
            return Err(Refusal::Present);
        }
        self.columns.bring(p);
        Ok(())
    }

    // The label of a place.
    pub fn label(&self, p: PlaceNumber) -> Result<K, Refusal>
        ensures told { MatchResult result (λ l. Passed (checks K.means.free (view K.means self.now) (asking p.0)) × (K.means.value l ≡ (view K.means self.now).label p.0)) (λ e. Refused (checks K.means.free (view K.means self.now) (asking p.0)) e) }
        ensures join { AreJoins K.means.kind (view K.means self.now).ledger (view K.means self.now).label → IfOk result (λ l. IsJoin K.means.kind (view K.means self.now).ledger p.0 (K.means.value l)) }
    {
        if p.index() >= self.n {
            return Err(Refusal::NoSuchPlace);
        }
        if !self.is_present(p) {
            return Err(Refusal::Absent);
        }
        Ok(K::from_row(read(&self.columns.tables.labels, p)))
    }

    // Replaces the own label of a place, and writes the reported places to the list. Answers how many were reported, and how many changed.
    pub fn own(
        &mut self,
        p: PlaceNumber,
        label: K,
        list: &mut [PlaceNumber],
    ) -> Result<(usize, usize), Refusal>
        ensures told { MatchResult result (λ c. EditAccepts K.means (view K.means self.old) (owning p.0 (K.means.value label) (length list.old)) p.0 list.new c (view K.means self.new)) (λ e. Refuses K.means.kind K.means.free (view K.means self.old) (owning p.0 (K.means.value label) (length list.old)) e (view K.means self.new)) }
        ensures rest { MatchResult result (λ c. drop c.0 list.new ≡ drop c.0 list.old) (λ _. list.new ≡ list.old) }
        ensures kept { Keeps self.old self.new }
    {
        if self.permit_is_out() {
            return Err(Refusal::PermitOut);
        }
        if list.len() < self.n {
            return Err(Refusal::ShortList);
        }
        if p.index() >= self.n {
            return Err(Refusal::NoSuchPlace);
        }
        if !self.is_present(p) {
            return Err(Refusal::Absent);
        }
        Ok(own_in::<K>(&mut self.columns, p, label, list))
    }

    // Takes the link from u to v away, and writes the reported places to the list. Answers how many were reported, and how many changed.
    pub fn unlink(
        &mut self,
        u: PlaceNumber,
        v: PlaceNumber,
        list: &mut [PlaceNumber],
    ) -> Result<(usize, usize), Refusal>
        ensures told { MatchResult result (λ c. EditAccepts K.means (view K.means self.old) (unlinking u.0 v.0 (length list.old)) v.0 list.new c (view K.means self.new)) (λ e. Refuses K.means.kind K.means.free (view K.means self.old) (unlinking u.0 v.0 (length list.old)) e (view K.means self.new)) }
        ensures rest { MatchResult result (λ c. drop c.0 list.new ≡ drop c.0 list.old) (λ _. list.new ≡ list.old) }
        ensures kept { Keeps self.old self.new }
    {
        self.ends(u, v, list.len())?;
        if !self.is_linked(u, v) {
            return Err(Refusal::NotLinked);
        }
        Ok(unlink_in::<K>(&mut self.columns, u, v, list))
    }

    // Links u to v, unless it closes a circle, and writes the reported places to the list. Answers how many were reported, and how many changed.
    pub fn link(
        &mut self,
        u: PlaceNumber,
        v: PlaceNumber,
        passage: K::Passage,
        list: &mut [PlaceNumber],
    ) -> Result<(usize, usize), Refusal>
        ensures told { MatchResult result (λ c. EditAccepts K.means (view K.means self.old) (linking u.0 v.0 passage (length list.old)) v.0 list.new c (view K.means self.new)) (λ e. Refuses K.means.kind K.means.free (view K.means self.old) (linking u.0 v.0 passage (length list.old)) e (view K.means self.new)) }
        ensures rest { MatchResult result (λ c. drop c.0 list.new ≡ drop c.0 list.old) (λ _. list.new ≡ list.old) }
        ensures kept { Keeps self.old self.new }
    {
        self.ends(u, v, list.len())?;
        if self.is_linked(u, v) {
            return Err(Refusal::Linked);
        }
        if self.count() >= self.m {
            return Err(Refusal::Full);
        }
        let row = K::passage_to_row(passage);
        link_in::<K>(&mut self.columns, u, v, row, list)
    }
}
