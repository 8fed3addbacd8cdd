// The calls that grant, renew and spend permits.
ghost use Rattle.std.specs.Prelude.{◌≡◌, ℕ, ◌<◌, true, false, MatchResult, ◌≢◌};
ghost use Rattle.law.specs.Calls.{out, grant as granting, renew as renewing, give_back as giving, discard as discarding};
ghost use Rattle.law.specs.State.{Leaves};
ghost use Rattle.store.specs.View.{permit_in, view};
ghost use Rattle.store.specs.Permits.{permit_for};
ghost use Rattle.store.specs.Calls.{Accepts, Refuses, Keeps};

use crate::grant::Grant;
use crate::permit::Permit;
use crate::store::Store;
use calendar::Day;
use common::{PlaceNumber, Refusal};
use discarding::discard_in;
use kinds::LabelKind;
use tables::read;

// A call tests what its table of checks says, line by line and in that order.
impl<K: LabelKind> Store<'_, K> {
    // Whether the permit is the one that is out.
    fn is_out(&self, permit: &Permit) -> bool
        ensures yes { result ≡ true → permit_in self.now.permit ≡ out permit.now.place.0 permit.now.day.number }
        ensures no { result ≡ false → permit_in self.now.permit ≢ out permit.now.place.0 permit.now.day.number }
    {
        self.permit.is_some_and(|g| permit.is_for(g.place, g.day))
    }

    // Whether the label of a place is free on the day.
    fn is_free(&self, p: PlaceNumber, day: Day) -> bool
        requires { p.0 < self.now.n }
        ensures { result ≡ K.means.free day.number ((view K.means self.now).label p.0) }
    {
        K::from_row(read(&self.columns.tables.labels, p)).is_free(day)
    }

    // Whether a link leaves a place.
    fn has_leaving(&self, p: PlaceNumber) -> bool
        requires { p.0 < self.now.n }
        ensures yes { result ≡ true → Leaves (view K.means self.now).ledger.links p.0 }
        ensures no { result ≡ false → Leaves (view K.means self.now).ledger.links p.0 → ⊥ }
    {
        self.columns.has_leaving(p)
    }

    // Hands out a permit to erase a place that is free on the day and that no link leaves.
    pub fn grant(&mut self, p: PlaceNumber, day: Day) -> Result<Permit, Refusal>
        ensures told { MatchResult result (λ x. Accepts K.means.kind K.means.free (view K.means self.old) (granting p.0 day.number) (view K.means self.new) × (x ≡ permit_for p day)) (λ e. Refuses K.means.kind K.means.free (view K.means self.old) (granting p.0 day.number) e (view K.means self.new)) }
        ensures kept { Keeps self.old self.new }
    {
        if self.permit_is_out() {
            return Err(Refusal::PermitOut);
        }
        if p.index() >= self.n {
            return Err(Refusal::NoSuchPlace);
        }
        if !self.is_present(p) {
            return Err(Refusal::Absent);
        }
        if !self.is_free(p, day) {
            return Err(Refusal::NotFree);
        }
        if self.has_leaving(p) {
            return Err(Refusal::Leaving);
        }
        self.permit = Some(Grant { place: p, day });
        Ok(Permit::from_numbers(p, day))
    }

    // Takes the permit that is out, and answers one for another day. A refusal hands it back.
    pub fn renew(&mut self, permit: Permit, day: Day) -> Result<Permit, (Refusal, Permit)>
        ensures told { MatchResult result (λ x. Accepts K.means.kind K.means.free (view K.means self.old) (renewing permit.place.0 permit.day.number day.number) (view K.means self.new) × (x ≡ permit_for permit.place day)) (λ e. Refuses K.means.kind K.means.free (view K.means self.old) (renewing permit.place.0 permit.day.number day.number) e.0 (view K.means self.new) × (e.1 ≡ permit)) }
        ensures kept { Keeps self.old self.new }
    {
        if !self.is_out(&permit) {
            return Err((Refusal::NoPermit, permit));
        }
        let place = permit.place();
        if !self.is_free(place, day) {
            return Err((Refusal::NotFree, permit));
        }
        permit.spend();
        self.permit = Some(Grant { place, day });
        Ok(Permit::from_numbers(place, day))
    }

    // Spends the permit, whether or not it is the one that is out.
    pub fn give_back(&mut self, permit: Permit) -> Result<(), Refusal>
        ensures told { MatchResult result (λ _. Accepts K.means.kind K.means.free (view K.means self.old) (giving permit.place.0 permit.day.number) (view K.means self.new)) (λ e. Refuses K.means.kind K.means.free (view K.means self.old) (giving permit.place.0 permit.day.number) e (view K.means self.new)) }
        ensures kept { Keeps self.old self.new }
    {
        let ours = self.is_out(&permit);
        permit.spend();
        if !ours {
            return Err(Refusal::NoPermit);
        }
        self.permit = None;
        Ok(())
    }

    // Spends the permit that is out, takes every link into its place away, empties its own label and its label, and makes it absent.
    pub fn discard(&mut self, permit: Permit) -> Result<(), (Refusal, Permit)>
        ensures told { MatchResult result (λ _. Accepts K.means.kind K.means.free (view K.means self.old) (discarding permit.place.0 permit.day.number) (view K.means self.new)) (λ e. Refuses K.means.kind K.means.free (view K.means self.old) (discarding permit.place.0 permit.day.number) e.0 (view K.means self.new) × (e.1 ≡ permit)) }
        ensures kept { Keeps self.old self.new }
    {
        if !self.is_out(&permit) {
            return Err((Refusal::NoPermit, permit));
        }
        let place = permit.place();
        permit.spend();
        discard_in::<K>(&mut self.columns, place);
        self.permit = None;
        Ok(())
    }
}
