// Numbers of symbols.
use plan_tools::Table;

/// The greatest of the numbers of some symbols; 0 where there are none.
pub fn highest(numbers: &Table<u32>, symbols: &[u32]) -> u32 {
    let mut most = 0;
    for symbol in symbols {
        most = numbers.get(*symbol).max(most);
    }
    most
}

/// Each of some symbols once more.
pub fn count(numbers: &mut Table<u32>, symbols: &[u32]) {
    for symbol in symbols {
        numbers.set(*symbol, numbers.get(*symbol).saturating_add(1));
    }
}

/// The numbers of some symbols are this one at least.
pub fn raise(numbers: &mut Table<u32>, symbols: &[u32], number: u32) {
    for symbol in symbols {
        numbers.set(*symbol, numbers.get(*symbol).max(number));
    }
}
