// Products that cuts decide.
ghost use Rattle.std.specs.Prelude.{◌≡◌, IfOk, IfSome, true};
ghost use Rattle.product_sums.specs.Products.{IsProduct, ProductsView};
ghost use Rattle.sum_cuts.specs.Cuts.{AreOverCut, IsZero};
ghost use Rattle.cut_sweeping.specs.inside.Cuts.{HoldsCuts};
ghost use Rattle.cut_sweeping.specs.inside.Regions.{AreRegions};

use crate::gone::Gone;
use crate::met::Met;
use crate::reach::Reach;
use crate::regions::{
    Region, Sought, begun, is_zero_over, join_all, product_over, take_home, take_out,
};
use crate::wide::{Effort, ON_THE_WAY, is_zero_widely};
use crate::zeros::Zeros;
use cut_search::{
    Atoms, Basis, Guide, Member, NEAR, Place, Range, Scene, last_atom, mark_of, places_of,
};
use linear_forms::Form;
use plan_tools::{Stop, Work};
use product_sums::Products;
use revc_base::Memory;
use std::alloc::Global;
use wide_cuts::LEAST_SUMS;

/// The most regions that are kept, and the most functions of all of them.
const MOST_REGIONS: usize = 4096;

const MOST_FUNCTIONS: usize = 200_000;

/// Of a sum from which cuts are looked for, each atom counts as so many units.
const UNITS_FOR_ATOM: u64 = 8;

// What a cut that was met before tells of a product.
#[derive(Drop)]
struct Home {
    product: Option<Form>,
}

/// Cuts that were met, and what they told.
#[derive(Drop)]
pub struct Cuts {
    pub atoms: Atoms,
    pub work: Work,
    pub regions: Vec<Region>,
    pub zeros: Zeros,
    met: Met,
    functions: usize,
}

impl Cuts {
    /// No cut, where so many atoms are given.
    pub fn new(alloc: Global, given: u32, reach: Reach) -> Cuts
        ensures { (t : ProductsView) → HoldsCuts t result }
    {
        let mut work = Work::new(alloc, reach.work());
        let atoms = Atoms::new(&mut work, given);
        let met = Met::new(&mut work, given, reach);
        Cuts {
            atoms,
            work,
            regions: Vec::new(alloc),
            zeros: Zeros::new(alloc),
            met,
            functions: 0,
        }
    }

    /// The last atom stands for the product at this place of the table. Where the search has spent
    /// its work, as where it may take none, that is of no use and not noted.
    pub fn note(&mut self, products: &Products, place: usize)
        ensures { (t : ProductsView) → HoldsCuts t self.old → HoldsCuts t self.new }
    {
        if self.work.is_stopped() {
            return;
        }
        let Some(known) = products.known(place) else {
            return;
        };
        self.work.spend(atoms_in(&known.first));
        self.work.spend(atoms_in(&known.second));
        self.atoms.note(&mut self.work, place, known);
        self.met.note(&mut self.work, &self.atoms, known);
    }

    /// The product of two sums, where a narrow cut tells it.
    pub fn product(
        &mut self,
        products: &Products,
        first: &Form,
        second: &Form,
    ) -> Result<Option<Form>, Memory>
        requires { HoldsCuts products.now self.old }
        ensures cuts { HoldsCuts products.now self.new }
        ensures product { IfOk result (λ found. IfSome found
            (IsProduct products.now first.now second.now)) }
    {
        if let Some(home) = self.product_at_home(products, first, second)? {
            return Ok(home.product);
        }
        let places = tried(
            &mut self.work,
            products,
            &self.atoms,
            &[first, second],
            NEAR,
        );
        for place in places.iter().rev() {
            if let Some(sum) = self.product_at(products, place, first, second)? {
                return Ok(Some(sum));
            }
        }
        self.refused()?;
        Ok(None)
    }

    // The product over a cut that was met before, over which both are known, if there is one.
    fn product_at_home(
        &mut self,
        products: &Products,
        first: &Form,
        second: &Form,
    ) -> Result<Option<Home>, Memory>
        requires { HoldsCuts products.now self.old }
        ensures cuts { HoldsCuts products.now self.new }
        ensures product { IfOk result (λ found. IfSome found (λ home. IfSome home.product
            (IsProduct products.now first.now second.now))) }
    {
        if self.work.is_stopped() {
            return Ok(None);
        }
        let (Some(one), Some(other)) = (last_atom(first), last_atom(second)) else {
            return Ok(None);
        };
        let sums = [
            Sought {
                mark: mark_of(&mut self.work, first),
                last: one,
            },
            Sought {
                mark: mark_of(&mut self.work, second),
                last: other,
            },
        ];
        let Some(mut region) = take_home(&mut self.work, &mut self.regions, sums) else {
            return Ok(None);
        };
        self.refresh(products, &mut region, &[])?;
        let sum = product_over(&mut self.work, &region, first, second)?;
        self.keep(region)?;
        Ok(Some(Home { product: sum }))
    }

    fn product_at(
        &mut self,
        products: &Products,
        place: &Place,
        first: &Form,
        second: &Form,
    ) -> Result<Option<Form>, Memory>
        requires { HoldsCuts products.now self.old }
        ensures cuts { HoldsCuts products.now self.new }
        ensures product { IfOk result (λ found. IfSome found
            (IsProduct products.now first.now second.now)) }
    {
        let Some(region) = self.region(products, place, &[first, second])? else {
            return Ok(None);
        };
        let sum = product_over(&mut self.work, &region, first, second)?;
        self.keep(region)?;
        Ok(sum)
    }

    /// Whether a sum is 0, as a narrow cut tells, or a wide one.
    pub fn is_zero(
        &mut self,
        products: &Products,
        sum: &Form,
        effort: Effort,
    ) -> Result<bool, Memory>
        requires { HoldsCuts products.now self.old }
        ensures cuts { HoldsCuts products.now self.new }
        ensures zero { IfOk result (λ is. is ≡ true → IsZero products.now sum.now) }
    {
        let places = tried(&mut self.work, products, &self.atoms, &[sum], effort.range);
        for place in places.iter().rev() {
            if self.is_zero_at(products, place, sum)? {
                return Ok(true);
            }
        }
        let is = is_zero_widely(&mut self.work, products, &self.atoms, sum, effort)?;
        self.refused()?;
        Ok(is)
    }

    fn is_zero_at(&mut self, products: &Products, place: &Place, sum: &Form) -> Result<bool, Memory>
        requires { HoldsCuts products.now self.old }
        ensures cuts { HoldsCuts products.now self.new }
        ensures zero { IfOk result (λ is. is ≡ true → IsZero products.now sum.now) }
    {
        let Some(region) = self.region(products, place, &[sum])? else {
            return Ok(false);
        };
        let is = is_zero_over(&mut self.work, &region, sum)?;
        self.keep(region)?;
        Ok(is)
    }

    /// A sum was made of two others: it is noted which of its atoms are left out.
    pub fn follow(&mut self, first: &Form, second: &Form, sum: &Form) -> Result<(), Memory>
        ensures { (t : ProductsView) → HoldsCuts t self.old → HoldsCuts t self.new }
    {
        self.zeros.follow(&mut self.work, first, second, sum)
    }

    /// A sum was met. Where it has the values of 0 or of a sum of the program in some columns, and
    /// a cut tells that it is that, an atom of it is left out of later sums.
    pub fn meet(&mut self, products: &Products, sum: &Form) -> Result<(), Memory>
        requires { HoldsCuts products.now self.old }
        ensures { HoldsCuts products.now self.new }
    {
        let Some(zero) = self.met.meet(&mut self.work, &self.atoms, sum) else {
            return Ok(());
        };
        let before = self.work.spent();
        let zero = self.zeros.normal(&zero)?;
        let is = self.is_zero(products, &zero, ON_THE_WAY)?;
        let spent = self.work.spent().saturating_sub(before);
        self.met.count(is, spent);
        if !is {
            return Ok(());
        }
        self.zeros.keep(&mut self.work, zero)
    }

    /// Want of memory, where the search met that.
    pub fn refused(&self) -> Result<(), Memory> {
        match self.work.finish(()) {
            Err(Stop::Memory(memory)) => Err(memory),
            _ => Ok(()),
        }
    }

    // The region of a cut, with all that is known of it. It is taken out.
    fn region(
        &mut self,
        products: &Products,
        place: &Place,
        goals: &[&Form],
    ) -> Result<Option<Region>, Memory>
        requires { HoldsCuts products.now self.old }
        ensures cuts { HoldsCuts products.now self.new }
        ensures region { IfOk result (λ found. IfSome found (λ region.
            AreOverCut products.now region.cut)) }
    {
        let Some(mut region) = self.found(products, place, goals)? else {
            return Ok(None);
        };
        self.refresh(products, &mut region, &place.inside)?;
        Ok(Some(region))
    }

    // Takes in all that is known of a region, where the walk to it opened some atoms.
    fn refresh(
        &mut self,
        products: &Products,
        region: &mut Region,
        inside: &[u32],
    ) -> Result<(), Memory>
        requires cuts { HoldsCuts products.now self.old }
        requires region { AreOverCut products.now region.old.cut }
        ensures cuts { HoldsCuts products.now self.new }
        ensures region { AreOverCut products.now region.new.cut }
    {
        let members = fresh(
            &mut self.work,
            products,
            &self.atoms,
            &self.zeros.gone,
            &mut region.guide,
            inside,
        );
        join_all(&mut self.work, products, region, &members)?;
        let relations = region.guide.fetch(&self.work);
        self.zeros
            .learn_all(&mut self.work, &region.cut, &relations)
    }

    // The region of a cut as it was left, or a new one.
    fn found(
        &mut self,
        products: &Products,
        place: &Place,
        goals: &[&Form],
    ) -> Result<Option<Region>, Memory>
        requires { HoldsCuts products.now self.old }
        ensures cuts { HoldsCuts products.now self.new }
        ensures region { IfOk result (λ found. IfSome found (λ region.
            AreOverCut products.now region.cut)) }
    {
        let scene = Scene {
            products,
            atoms: &self.atoms,
        };
        let basis = Basis::of(&mut self.work, scene, place, goals);
        if basis.leads.len() < LEAST_SUMS {
            return Ok(None);
        }
        match take_out(&mut self.regions, &basis) {
            Some(region) => Ok(Some(region)),
            None => begun(&mut self.work, &basis, place),
        }
    }

    // Keeps a region.
    fn keep(&mut self, mut region: Region) -> Result<(), Memory>
        ensures { (t : ProductsView) → AreOverCut t region.cut → HoldsCuts t self.old
            → HoldsCuts t self.new }
    {
        make_room(&mut self.regions, &mut self.functions);
        self.functions = self.functions.saturating_add(region.guide.grown());
        self.regions.push(region)?;
        Ok(())
    }
}

// Lets all regions go, where there are many.
fn make_room(regions: &mut Vec<Region>, functions: &mut usize)
    ensures { (t : ProductsView) → AreRegions t regions.old.items
        → AreRegions t regions.new.items }
{
    if regions.len() < MOST_REGIONS && *functions <= MOST_FUNCTIONS {
        return;
    }
    regions.clear();
    *functions = 0;
}

// The cuts that are tried.
fn tried(
    work: &mut Work,
    products: &Products,
    atoms: &Atoms,
    goals: &[&Form],
    range: Range,
) -> Vec<Place> {
    if work.is_stopped() {
        return Vec::new(work.alloc);
    }
    for goal in goals {
        work.spend(atoms_in(goal).saturating_mul(UNITS_FOR_ATOM));
    }
    places_of(work, Scene { products, atoms }, goals, range)
}

// How many atoms a form has.
fn atoms_in(form: &Form) -> u64 {
    let mut count = 0;
    for term in form.terms() {
        count = u64::from(term.word.count_ones()).saturating_add(count);
    }
    count
}

// The atoms that may be new functions of a region.
fn fresh(
    work: &mut Work,
    products: &Products,
    atoms: &Atoms,
    gone: &Gone,
    guide: &mut Guide,
    inside: &[u32],
) -> Vec<Member> {
    let fresh = guide.fresh(work, Scene { products, atoms }, inside);
    let mut members = Vec::new(work.alloc);
    for atom in &fresh {
        if let Some(made) = atoms.made(*atom) {
            let member = Member {
                atom: *atom,
                place: made.place,
                is_gone: gone.has(*atom),
            };
            work.push(&mut members, member);
        }
    }
    members
}
