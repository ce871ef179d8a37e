// What products and sums are made of.
ghost use Rattle.bit_sums.specs.Sums.{product_bases, bases_of};

use crate::{Product, Sum};
use dependency_graph::{MadeOfBases, set_all_uses};

impl MadeOfBases for Product {
    ghost bases = { product_bases };

    fn set_uses(&self, table: &mut [u32], place: u32) {
        set_all_uses(table, self.first(), place);
        set_all_uses(table, self.second(), place);
    }
}

impl MadeOfBases for Sum {
    ghost bases = { bases_of };

    fn set_uses(&self, table: &mut [u32], place: u32) {
        set_all_uses(table, self.bits(), place);
        set_all_uses(table, self.products(), place);
    }
}
