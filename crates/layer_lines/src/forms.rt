// What temporary lines hold.
use indexmap::IndexSet;
use plan_tools::{NOWHERE, Table, Work, list_at, number};
use revc_base::Key;
use std::alloc::Global;

/// A form: a sum of symbols that a temporary line holds or held, by its number.
pub type Form = u32;

/// The forms of temporary lines. A sum is the falling list of its symbols.
#[derive(Drop)]
pub struct Forms {
    sums: IndexSet<Key<u32>>,
    /// Of each symbol the forms that have it.
    with: Vec<Vec<Form>>,
    /// Of each symbol the form of it alone.
    alone: Table<Form>,
    /// Of each form the lines that hold it.
    holders: Vec<Vec<u32>>,
    /// Of each line its form, and its place among the holders of that.
    forms: Table<Form>,
    places: Table<u32>,
}

impl Forms {
    /// No line holds a form yet, of so many symbols and lines.
    pub fn new(work: &mut Work, alloc: Global, symbols: usize, lines: u32) -> Forms {
        Forms {
            sums: IndexSet::new(alloc),
            with: work.lists(symbols),
            alone: Table::new(work, symbols, NOWHERE),
            holders: Vec::new(alloc),
            forms: Table::new(work, lines as usize, NOWHERE),
            places: Table::new(work, lines as usize, 0),
        }
    }

    /// The form of a sum; `NOWHERE` where that is empty.
    pub fn form(&mut self, work: &mut Work, sum: &[u32]) -> Form {
        if sum.is_empty() {
            return NOWHERE;
        }
        let key = Key::new(work.copy(sum));
        let Some((place, is_new)) = work.note(self.sums.insert_full(key)) else {
            return NOWHERE;
        };
        let form = number(place);
        if is_new {
            self.add(work, form, sum);
        }
        form
    }

    // Adds a new form to the lists of its symbols.
    fn add(&mut self, work: &mut Work, form: Form, sum: &[u32]) {
        work.push(&mut self.holders, Vec::new(work.alloc));
        if let [symbol] = sum {
            self.alone.set(*symbol, form);
        }
        for symbol in sum {
            if let Some(forms) = self.with.get_mut(*symbol as usize) {
                work.push(forms, form);
            }
        }
    }

    /// The sum of a form; an empty one where it is none.
    pub fn sum(&self, form: Form) -> &[u32] {
        match self.sums.get_index(form as usize) {
            Some(key) => key.items(),
            None => &[],
        }
    }

    /// The form of a symbol alone, if any line ever held it.
    pub fn alone(&self, symbol: u32) -> Form {
        self.alone.get(symbol)
    }

    /// The forms that have a symbol.
    pub fn with(&self, symbol: u32) -> &[Form] {
        list_at(&self.with, symbol)
    }

    /// Of the forms that have a symbol the latest ones, at most so many.
    pub fn latest(&self, symbol: u32, most: usize) -> &[Form] {
        let forms = self.with(symbol);
        let (_, latest) = forms.split_at(forms.len().saturating_sub(most));
        latest
    }

    /// The lines that hold a form.
    pub fn holders(&self, form: Form) -> &[u32] {
        list_at(&self.holders, form)
    }

    /// The form that a line holds; `NOWHERE` where it holds none.
    pub fn held(&self, line: u32) -> Form {
        self.forms.get(line)
    }

    /// A line that held no form holds this one.
    pub fn hold(&mut self, work: &mut Work, line: u32, form: Form) {
        let Some(holders) = self.holders.get_mut(form as usize) else {
            return;
        };
        self.forms.set(line, form);
        self.places.set(line, number(holders.len()));
        work.push(holders, line);
    }

    /// A line holds no form any more.
    pub fn leave(&mut self, line: u32) {
        let Some(holders) = self.holders.get_mut(self.forms.get(line) as usize) else {
            return;
        };
        let place = self.places.get(line);
        self.forms.set(line, NOWHERE);
        if let Some(last) = holders.pop()
            && last != line
        {
            plan_tools::put(holders, place, last);
            self.places.set(last, place);
        }
    }
}
