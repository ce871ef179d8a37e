// Narrow cuts with the functions of them that are known.
ghost use Rattle.std.specs.Prelude.{◌≡◌, IfOk, IfSome, true};
ghost use Rattle.std.specs.List.{AllByRecursion};
ghost use Rattle.product_sums.specs.Products.{IsProduct, ProductsView};
ghost use Rattle.sum_cuts.specs.Cuts.{AreOverCut, IsZero};
ghost use Rattle.cut_sweeping.specs.inside.Regions.{AreRegions, TakesRegion};

use cut_search::{Basis, Guide, Member, Place, Vector};
use linear_forms::Form;
use plan_tools::Work;
use product_sums::Products;
use revc_base::Memory;
use sum_cuts::{Cut, MOST_SUMS};

/// A cut, and where to look for its functions.
#[derive(Drop)]
pub struct Region {
    key: u64,
    pub cut: Cut,
    pub guide: Guide,
}

impl Region {
    // The functions of it whose sum may be a form.
    fn reading(&self, work: &mut Work, form: &Form) -> Option<Vec<usize>> {
        self.guide.reader.reading(work, &self.cut.sums, form)
    }
}

/// Takes the region of a cut out, where there is one.
pub fn take_out(regions: &mut Vec<Region>, basis: &Basis) -> Option<Region>
    ensures { (t : ProductsView) → AreRegions t regions.old.items
        → TakesRegion t regions.new.items result }
{
    let at = place_of(regions, basis)?;
    if at >= regions.len() {
        return None;
    }
    Some(regions.swap_remove(at))
}

/// A sum by its mark and its last atom.
#[derive(Clone, Copy)]
pub struct Sought {
    pub mark: Vector,
    pub last: u32,
}

/// Takes a region out over whose cut both sums may be read, the one with the most functions, where
/// there is one.
pub fn take_home(work: &mut Work, regions: &mut Vec<Region>, sums: [Sought; 2]) -> Option<Region>
    ensures { (t : ProductsView) → AreRegions t regions.old.items
        → TakesRegion t regions.new.items result }
{
    let at = home_of(work, regions, sums)?;
    if at >= regions.len() {
        return None;
    }
    Some(regions.swap_remove(at))
}

fn home_of(work: &mut Work, regions: &[Region], sums: [Sought; 2]) -> Option<usize> {
    let mut home = None;
    let mut most = 0;
    work.spend((regions.len() / 8) as u64);
    for at in 0..regions.len() {
        let region = &regions[at];
        if region.cut.functions.len() > most && may_read(work, &region.guide, sums) {
            home = Some(at);
            most = region.cut.functions.len();
        }
    }
    home
}

fn may_read(work: &mut Work, guide: &Guide, sums: [Sought; 2]) -> bool {
    for sum in sums {
        if !guide.may_read(work, sum.last, &sum.mark) {
            return false;
        }
    }
    true
}

// The place of the region of a cut, those used last first.
fn place_of(regions: &[Region], basis: &Basis) -> Option<usize> {
    let key = key_of(basis);
    for at in (0..regions.len()).rev() {
        if regions[at].key == key && is_of(&regions[at].cut, basis) {
            return Some(at);
        }
    }
    None
}

// A key of the sums of a cut, whatever their order is.
fn key_of(basis: &Basis) -> u64 {
    let mut key = 0;
    for lead in &basis.leads {
        key ^= lead.form.fingerprint().first;
    }
    key
}

// Whether a cut has these sums.
fn is_of(cut: &Cut, basis: &Basis) -> bool {
    if cut.sums.len() != basis.leads.len() {
        return false;
    }
    for lead in &basis.leads {
        if !cut.sums.iter().any(|sum| sum.is_alike(&lead.form)) {
            return false;
        }
    }
    true
}

/// The region of a new cut.
pub fn begun(work: &mut Work, basis: &Basis, place: &Place) -> Result<Option<Region>, Memory>
    ensures { IfOk result (λ found. IfSome found (λ region. (t : ProductsView)
        → AreOverCut t region.cut)) }
{
    let mut sums = Vec::new(work.alloc);
    for lead in &basis.leads {
        sums.push(lead.form.copy()?)?;
    }
    if sums.len() > MOST_SUMS {
        return Ok(None);
    }
    let cut = Cut::new(sums)?;
    let guide = Guide::new(work, &cut, basis, place);
    let key = key_of(basis);
    Ok(Some(Region { key, cut, guide }))
}

/// Takes the values of the products for which these atoms stand in as functions, where they are.
pub fn join_all(
    work: &mut Work,
    products: &Products,
    region: &mut Region,
    members: &[Member],
) -> Result<(), Memory>
    requires { AreOverCut products.now region.old.cut }
    ensures { AreOverCut products.now region.new.cut }
{
    for member in members {
        join(work, products, region, *member)?;
    }
    Ok(())
}

fn join(
    work: &mut Work,
    products: &Products,
    region: &mut Region,
    member: Member,
) -> Result<(), Memory>
    requires { AreOverCut products.now region.old.cut }
    ensures { AreOverCut products.now region.new.cut }
{
    if region.guide.is_full() || work.is_stopped() {
        return Ok(());
    }
    let Some(known) = products.known(member.place) else {
        return Ok(());
    };
    let Some(first) = region.reading(work, &known.first) else {
        return Ok(());
    };
    let Some(second) = region.reading(work, &known.second) else {
        return Ok(());
    };
    let at = region.cut.functions.len();
    if let Some(table) = region.cut.join(known, &first, &second)? {
        region.guide.enter(work, member, at, &table);
    }
    Ok(())
}

/// The product of two forms, where it is a sum of functions of a region.
pub fn product_over(
    work: &mut Work,
    region: &Region,
    first: &Form,
    second: &Form,
) -> Result<Option<Form>, Memory>
    ensures { IfOk result (λ found. IfSome found (λ sum. (t : ProductsView)
        → AreOverCut t region.now.cut → IsProduct t first.now second.now sum)) }
{
    let Some(one) = region.reading(work, first) else {
        return Ok(None);
    };
    let Some(other) = region.reading(work, second) else {
        return Ok(None);
    };
    let Some(table) = region.cut.product_table(first, &one, second, &other)? else {
        return Ok(None);
    };
    let Some(places) = region.guide.sum_of(work, &table) else {
        return Ok(None);
    };
    region.cut.form_of(&table, &places)
}

/// Whether a form is 0 as a function of a region.
pub fn is_zero_over(work: &mut Work, region: &Region, form: &Form) -> Result<bool, Memory>
    ensures { IfOk result (λ is. is ≡ true → (t : ProductsView) → AreOverCut t region.now.cut
        → IsZero t form.now) }
{
    let Some(places) = region.reading(work, form) else {
        return Ok(false);
    };
    region.cut.is_zero(form, &places)
}
