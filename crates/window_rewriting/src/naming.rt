// What there is in a window once the nodes that go are gone, and by which symbols it is called.
use plan_tools::Work;
use symbol_graphs::{Affine, Graph, SymbolSum};
use symbol_windows::{Known, Window};
use window_programs::{ONE, Span, VARIABLES, has, mask_of, word_of};

// The most words that there are.
const MOST_WORDS: usize = 13;

/// Words that are independent of each other and the constant, and their names.
#[derive(Drop)]
pub struct Names {
    pub words: Vec<u64>,
    forms: Vec<Affine>,
    /// Sums that are 0, by which others become shorter; the longest first.
    zeros: Vec<Affine>,
    /// Sums that have a symbol, as masks.
    pub named: Vec<u32>,
    span: Span,
}

impl Names {
    /// Those of a window: opened nodes that stay, the last ones first, then its sums.
    pub fn of(graph: &Graph, work: &mut Work, window: &Window, gone: &[u32]) -> Names {
        let mut names = Names {
            words: Vec::new(work.alloc),
            forms: Vec::new(work.alloc),
            zeros: Vec::new(work.alloc),
            named: Vec::new(work.alloc),
            span: Span::of(&[]),
        };
        names.add_nodes(work, window, gone);
        names.add_sums(work, window);
        names.add_offsets(work, window, gone);
        names.add_zeros(graph, work, window, gone);
        names.shorten_forms(work);
        names
    }

    // Nodes whose leaf sums the basis has, by their symbols.
    fn add_nodes(&mut self, work: &mut Work, window: &Window, gone: &[u32]) {
        let mut room = MOST_WORDS.saturating_sub(window.rank());
        for known in window.known.iter().rev() {
            let is_plain = known.is_linear && known.leaf.len() <= 1;
            if gone.contains(&known.symbol) || is_plain || !known.is_linear && room == 0 {
                continue;
            }
            let Some(word) = window.word_over_basis(work, &known.leaf) else {
                continue;
            };
            let form = Affine::symbol(work, known.symbol);
            if self.add(work, word ^ known.word, form) && !known.is_linear {
                room = room.saturating_sub(1);
            }
        }
    }

    // The sums of the basis.
    fn add_sums(&mut self, work: &mut Work, window: &Window) {
        for (sum, variable) in window.basis.iter().zip(VARIABLES) {
            let form = Affine {
                one: false,
                bits: work.copy(sum),
            };
            self.add(work, variable, form);
        }
    }

    // Nodes whose leaf sums the basis lacks, less these.
    fn add_offsets(&mut self, work: &mut Work, window: &Window, gone: &[u32]) {
        for known in window.known.iter().rev() {
            if gone.contains(&known.symbol)
                || known.is_linear
                || self.words.len() >= MOST_WORDS
                || window.word_over_basis(work, &known.leaf).is_some()
            {
                continue;
            }
            let form = Affine {
                one: false,
                bits: work.sum_of(&[known.symbol], &known.leaf),
            };
            self.add(work, known.word, form);
        }
    }

    // Takes a word in, where it is independent of those before it.
    fn add(&mut self, work: &mut Work, word: u64, form: Affine) -> bool {
        let is_new = self.span.insert(word);
        if is_new {
            work.push(&mut self.words, word);
            work.push(&mut self.forms, form);
        }
        is_new
    }

    // Nodes without products are other names of their sums.
    fn add_zeros(&mut self, graph: &Graph, work: &mut Work, window: &Window, gone: &[u32]) {
        for known in &window.known {
            let Some(sum) = graph.sum_of_symbol(known.symbol) else {
                continue;
            };
            if !sum.products.is_empty()
                || sum.bits.len() < 2
                || sum.bits.iter().any(|symbol| gone.contains(symbol))
            {
                continue;
            }
            self.add_zero(work, known.symbol, &sum.bits, sum.one);
            if known.is_linear && known.leaf != sum.bits {
                self.add_zero(work, known.symbol, &known.leaf, known.word != 0);
            }
            self.add_named(work, window, known);
        }
        let sorted = self.zeros.sort_by_key(|zero| usize::MAX - zero.bits.len());
        work.note(sorted);
    }

    fn add_zero(&mut self, work: &mut Work, symbol: u32, bits: &[u32], one: bool) {
        let zero = Affine {
            one,
            bits: work.sum_of(&[symbol], bits),
        };
        work.push(&mut self.zeros, zero);
    }

    fn add_named(&mut self, work: &mut Work, window: &Window, known: &Known) {
        if let Some(word) = window.word_over_basis(work, &known.leaf)
            && let Some(mask) = mask_of(&self.words, word ^ known.word)
        {
            work.push(&mut self.named, mask & !ONE);
        }
    }

    fn shorten_forms(&mut self, work: &mut Work) {
        for place in 0..self.forms.len() {
            let Some(form) = self.forms.get(place) else {
                return;
            };
            let short = self.short(work, form);
            if let Some(form) = self.forms.get_mut(place) {
                *form = short;
            }
        }
    }

    /// A sum of symbols with names in the place of longer sums.
    pub fn short(&self, work: &mut Work, from: &Affine) -> Affine {
        let mut now = Affine {
            one: from.one,
            bits: work.copy(&from.bits),
        };
        for zero in &self.zeros {
            let bits = work.sum_of(&now.bits, &zero.bits);
            if bits.len() < now.bits.len() {
                now.bits = bits;
                now.one = now.one != zero.one;
            }
        }
        now
    }

    /// The sum of what a mask has, before names take the place of longer sums.
    pub fn sum(&self, work: &mut Work, mask: u32) -> Affine {
        let mut sum = Affine::zero(work.alloc);
        sum.one = mask & ONE != 0;
        for (place, form) in self.forms.iter().enumerate() {
            if has(mask & !ONE, place) {
                sum.add(work, form);
            }
        }
        sum
    }

    /// The sum of what a mask has.
    pub fn affine(&self, work: &mut Work, mask: u32) -> Affine {
        let sum = self.sum(work, mask);
        self.short(work, &sum)
    }

    /// One more name, of what comes behind the words.
    pub fn push(&mut self, work: &mut Work, form: Affine) {
        work.push(&mut self.forms, form);
    }

    /// Names take the place of longer sums in the bits of a sum.
    pub fn shorten(&self, work: &mut Work, sum: &mut SymbolSum) {
        let bits = Affine {
            one: sum.one,
            bits: work.copy(&sum.bits),
        };
        let short = self.short(work, &bits);
        sum.one = short.one;
        sum.bits = short.bits;
    }

    /// The symbols of a name.
    pub fn form(&self, place: usize) -> &[u32] {
        match self.forms.get(place) {
            Some(form) => &form.bits,
            None => &[],
        }
    }

    /// The word of a mask.
    pub fn word(&self, mask: u32) -> u64 {
        word_of(&self.words, mask)
    }
}
