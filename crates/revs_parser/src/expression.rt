// Expressions.

ghost use Rattle.std.specs.Prelude.{◌≡◌, ◌+◌, ◌<◌, ◌≤◌, true, false, length};
ghost use Rattle.std.specs.Prelude.{map, IfOk, IfErr, IfSome, IfNone};
ghost use Rattle.std.specs.Prelude.{MatchResult};
ghost use Rattle.revs_terms.specs.declared.limits.TheConstants.{MOST_LEVELS};
ghost use Rattle.revs_grammar.specs.Forms as g;
ghost use Rattle.revs_grammar.specs.Sentences.{few_levels};
ghost use Rattle.revs_lexer.specs.Rest.{left};
ghost use Rattle.revs_parser.specs.inside.Reading.{Skips, Reads, Halts, Gives};
ghost use Rattle.revs_parser.specs.inside.Reading.{base_first, item_first, HaltsAnywhere};
ghost use Rattle.revs_parser.specs.inside.Forms.{ReadsNames, ReadsPart, ReadsAtoms, ReadsFunction};
ghost use Rattle.revs_parser.specs.inside.Forms.{ReadsRegister, ReadsBlock, ReadsPiece};
ghost use Rattle.revs_parser.specs.inside.Forms.{ReadsBinding, in_part, in_function, in_block};
ghost use Rattle.revs_parser.specs.inside.Forms.{in_application, in_register, in_binding};
ghost use Rattle.revs_parser.specs.inside.Forms.{ReadsFunctionNames, in_function_names, names_rest};
ghost use Rattle.revs_parser.specs.inside.Forms.{in_bound_names, ReadsAppend, in_append, closed_by};
ghost use Rattle.revs_parser.specs.inside.Forms.{EndsPiece, HeadsFor, NoFor, ReadsFor, in_for};
ghost use Rattle.revs_parser.specs.inside.Forms.{in_range, ReadsLoop, in_loop, GivesAt, in_parts};
ghost use Rattle.revs_parser.specs.inside.Forms.{infix_sign, infix_term, in_chain};
ghost use Rattle.revs_parser.specs.inside.Forms.{ReadsOperand, in_operand, ReadsOpened, in_opened};
ghost use Rattle.revs_parser.specs.inside.Forms.{NoPartBehind, ReadsAssigned, ReadsOperated};
ghost use Rattle.revs_parser.specs.inside.Forms.{in_atom, ReadsMore, HaltsMore};
ghost use Rattle.revs_parser.specs.declared.stop.Stop.{Stop};
ghost use Rattle.revs_parser.specs.declared.expression.Infix.TheVariants as infixes;
ghost use Rattle.revs_terms.specs.Trees.{tree_of, item_tree_of};

use crate::build::{assignment, bound_value, function_of, joined, operation, with_parts};
use crate::front::{Opener, Operator, first_opener, first_operator};
use crate::leaf::{after, after_word, begins_name, expect, expect_word, name, single_base};
use crate::numbers::num;
use crate::stop::{Stop, both, put, put_alone};
use revc_base::Place;
use revs_grammar::Profile;
use revs_lexer::{Kind, Rest, Sign, Word};
use revs_terms::limits::MOST_LEVELS;
use revs_terms::{Ends, Item, Name, Part, Term};
use std::alloc::Global;

/// What the reading of an expression goes by: where memory comes from, the profile of the forms,
/// and the level.
#[derive(Clone, Copy)]
pub struct Reader {
    pub alloc: Global,
    pub profile: Profile,
    pub level: u32,
}

// What stands between the operands of a chain: `<>` between products, `&&` between applications.
#[derive(Clone, Copy)]
enum Infix {
    Xor,
    And,
}

impl Infix {
    fn sign(self) -> Sign
        ensures { result ≡ infix_sign self }
    {
        match self {
            Infix::Xor => Sign::Xor,
            Infix::And => Sign::And,
        }
    }

    // The term of these operands.
    fn term(self, operands: Vec<Term>) -> Term
        ensures { tree_of result ≡ infix_term self (map tree_of operands.items) }
    {
        match self {
            Infix::Xor => Term::Xor(operands),
            Infix::And => Term::And(operands),
        }
    }
}

// { name } behind the names so far, and the sign that ends them.
fn names_up_to(mut names: Vec<Name>, tokens: Rest, end: Sign) -> Result<(Vec<Name>, Rest), Stop>
    ensures { Gives (λ all. ReadsNames names.items all.items end)
        (names_rest end) tokens.entry result }
{
    let mut rest = tokens;
    while begins_name(rest) {
        rest = put(&mut names, name(rest))?;
    }
    both(names, expect(rest, end))
}

// The names of a function behind its `fun`, and its arrow.
fn function_names(alloc: Global, tokens: Rest) -> Result<(Vec<Name>, Rest), Stop>
    ensures { Gives (λ names. ReadsFunctionNames names.items) in_function_names
        tokens.entry result }
{
    let (first, rest) = name(tokens)?;
    let mut names = Vec::new(alloc);
    names.push(first)?;
    names_up_to(names, rest, Sign::Arrow)
}

// The name that a `let` binds, the names behind it, and the `=`.
fn bound_names(alloc: Global, tokens: Rest) -> Result<(Name, Vec<Name>, Rest), Stop>
    ensures { MatchResult result
        (λ read. Reads in_bound_names (read.0, (read.1.items, tt))
        (left tokens.entry) (left read.2))
        (λ stop. Halts in_bound_names (left tokens.entry) stop) }
{
    let (bound, rest) = name(tokens)?;
    let (names, rest) = names_up_to(Vec::new(alloc), rest, Sign::Equal)?;
    Ok((bound, names, rest))
}

// Whether the first token begins a base.
fn begins_base(tokens: Rest) -> bool
    ensures { result ≡ base_first (left tokens.entry) }
{
    let Some((first, _)) = tokens.split_first() else {
        return false;
    };
    match &first.kind {
        Kind::Name { .. } => true,
        Kind::Word(word) => matches!(word, Word::True | Word::False | Word::Reg),
        Kind::Sign(sign) => matches!(sign, Sign::OpenRound | Sign::OpenCurly),
        _ => false,
    }
}

// An item of a block, or its last expression.
enum Piece {
    Item(Item),
    Last(Term),
}

// What an expression is in a block: an item before a `;`, and the last one before the `}`.
fn piece_of(term: Term, tokens: Rest) -> Result<(Piece, Rest), Stop>
    ensures { MatchResult result
        (λ read. EndsPiece (tree_of term) read.0 (left tokens.entry) (left read.1))
        (λ stop. HaltsAnywhere g.body_end (left tokens.entry) stop) }
{
    if let Some((_, behind)) = after(tokens, Sign::Semi) {
        return Ok((Piece::Item(Item::Do(term)), behind));
    }
    let (term, rest) = both(term, expect(tokens, Sign::CloseCurly))?;
    Ok((Piece::Last(term), rest))
}

// Whether the first token begins an item that is no expression.
fn begins_item(profile: Profile, tokens: Rest) -> bool
    ensures { result ≡ item_first profile (left tokens.entry) }
{
    let Some((first, _)) = tokens.split_first() else {
        return false;
    };
    match (&first.kind, profile) {
        (Kind::Word(Word::Let), _) => true,
        (Kind::Word(Word::For), Profile::Two) => true,
        _ => false,
    }
}

// The place of a `for` and the tokens behind it, where it stands first and the profile has it.
fn after_for(profile: Profile, tokens: Rest) -> Option<(Place, Rest)>
    ensures found { IfSome result (λ found. HeadsFor profile found.0
        (left tokens.entry) (left found.1)) }
    ensures none { IfNone result (NoFor profile (left tokens.entry)) }
{
    match profile {
        Profile::One => None,
        Profile::Two => after_word(tokens, Word::For),
    }
}

// Whether a part stands behind what was read.
fn is_part_behind(read: &Result<(Term, Rest), Stop>) -> bool
    ensures { result ≡ false → NoPartBehind read.now }
{
    match read {
        Ok((_, rest)) => after(*rest, Sign::Dot).is_some(),
        Err(_) => false,
    }
}

impl Reader {
    // A part behind its dot, which has this place.
    fn part(self, tokens: Rest, at: Place) -> Result<(Part, Rest), Stop>
        ensures { Gives (ReadsPart self.profile at) (in_part self.profile) tokens.entry result }
    {
        let rest = expect(tokens, Sign::OpenSquare)?;
        let (i, rest) = num(self.alloc, self.profile, rest)?;
        let Some((_, behind)) = after(rest, Sign::DotDot) else {
            return both(Part::Index { i, at }, expect(rest, Sign::CloseSquare));
        };
        let (i, (j, rest)) = both(i, num(self.alloc, self.profile, behind))?;
        both(Part::Slice { i, j, at }, expect(rest, Sign::CloseSquare))
    }

    // { part }
    fn all_parts(self, tokens: Rest) -> Result<(Vec<Part>, Rest), Stop>
        ensures { Gives (λ parts. Skips (in_parts self.profile) (parts.items, tt))
            (in_parts self.profile) tokens.entry result }
    {
        let mut parts = Vec::new(self.alloc);
        let mut rest = tokens;
        while let Some((at, behind)) = after(rest, Sign::Dot) {
            rest = put_alone(&mut parts, self.part(behind, at))?;
        }
        Ok((parts, rest))
    }

    // The name of a `for` behind the word, its two numbers, and the words around them.
    fn range(self, tokens: Rest) -> Result<(Name, Box<Ends>, Rest), Stop>
        ensures { MatchResult result
            (λ read. Reads (in_range self.profile)
            (read.0, (read.1.value.first, (read.1.value.last, tt)))
            (left tokens.entry) (left read.2))
            (λ stop. Halts (in_range self.profile) (left tokens.entry) stop) }
    {
        let (name, rest) = name(tokens)?;
        let rest = expect_word(rest, Word::In)?;
        let (first, rest) = num(self.alloc, self.profile, rest)?;
        let (first, rest) = both(first, expect(rest, Sign::DotDot))?;
        let (first, (last, rest)) = both(first, num(self.alloc, self.profile, rest))?;
        let (ends, rest) = both(Ends { first, last }, expect_word(rest, Word::Do))?;
        let ends = Box::new(self.alloc, ends)?;
        Ok((name, ends, rest))
    }

    // The level inside, where it is at most 100; the tokens begin with the one that opens it.
    fn open(self, tokens: Rest) -> Result<u32, Stop>
        requires { self.level ≤ MOST_LEVELS }
        ensures inner { IfOk result (λ inner. inner ≡ self.level + 1) }
        ensures within { IfOk result (λ inner. few_levels (self.level + 1) ≡ true) }
        ensures stops { IfErr result (λ stop. stop ≡ Stop.Nesting (length (left tokens.entry))) }
        ensures deep { IfErr result (λ stop. few_levels (self.level + 1) ≡ false) }
    {
        if self.level < MOST_LEVELS {
            Ok(self.level + 1)
        } else {
            Err(Stop::Nesting(tokens.len()))
        }
    }

    /// The expression at this level that stands first, and the tokens behind it.
    #[cycle(read)]
    pub fn expression(self, tokens: Rest) -> Result<(Term, Rest), Stop>
        requires { self.level ≤ MOST_LEVELS }
        ensures { GivesAt g.expression self tree_of tokens.entry result }
    {
        if let Some((at, behind)) = after_word(tokens, Word::Fun) {
            let level = self.open(tokens)?;
            return Reader { level, ..self }.function(behind, at);
        }
        let (left, rest) = self.sum(tokens)?;
        let Some((_, behind)) = after(rest, Sign::Assign) else {
            return Ok((left, rest));
        };
        self.assigned(left, behind)
    }

    // What is assigned to a term, behind the sign.
    #[cycle(read)]
    fn assigned(self, target: Term, tokens: Rest) -> Result<(Term, Rest), Stop>
        requires { self.level ≤ MOST_LEVELS }
        ensures { Gives
            (λ term. ReadsAssigned self.profile self.level (tree_of target) (tree_of term))
            (in_chain infixes.Xor self.profile self.level) tokens.entry result }
    {
        let (target, (value, rest)) = both(target, self.sum(tokens))?;
        let term = assignment(self.alloc, target, value)?;
        Ok((term, rest))
    }

    // The names and the body of a function behind its `fun`, at the level of the body.
    #[cycle(read)]
    fn function(self, tokens: Rest, at: Place) -> Result<(Term, Rest), Stop>
        requires { self.level ≤ MOST_LEVELS }
        ensures { Gives (λ term. ReadsFunction self.profile self.level at (tree_of term))
            (in_function self.profile self.level) tokens.entry result }
    {
        let (names, rest) = function_names(self.alloc, tokens)?;
        let (body, rest) = self.expression(rest)?;
        let term = function_of(self.alloc, names, body, at)?;
        Ok((term, rest))
    }

    // Most sums and products are one operand, so that what more of them want stands apart.
    #[cycle(read)]
    fn sum(self, tokens: Rest) -> Result<(Term, Rest), Stop>
        requires { self.level ≤ MOST_LEVELS }
        ensures { GivesAt g.sum self tree_of tokens.entry result }
    {
        let (first, rest) = self.product(tokens)?;
        let Some((_, behind)) = after(rest, Sign::Xor) else {
            return Ok((first, rest));
        };
        self.chained_behind(first, behind, Infix::Xor)
    }

    #[cycle(read)]
    fn product(self, tokens: Rest) -> Result<(Term, Rest), Stop>
        requires { self.level ≤ MOST_LEVELS }
        ensures { GivesAt g.product self tree_of tokens.entry result }
    {
        let (first, rest) = self.application(tokens)?;
        let Some((_, behind)) = after(rest, Sign::And) else {
            return Ok((first, rest));
        };
        self.chained_behind(first, behind, Infix::And)
    }

    // The operands of a chain behind the first one and a sign.
    #[cycle(read)]
    fn chained_behind(
        self,
        first: Term,
        tokens: Rest,
        operator: Infix,
    ) -> Result<(Term, Rest), Stop>
        requires { self.level ≤ MOST_LEVELS }
        ensures { MatchResult result
            (λ read. ReadsMore operator self.profile self.level (tree_of first) (tree_of read.0)
            (left tokens.entry) (left read.1))
            (λ stop. HaltsMore operator self.profile self.level (tree_of first)
            (left tokens.entry) stop) }
    {
        let mut behind = tokens;
        let mut terms = Vec::new(self.alloc);
        terms.push(first)?;
        'operands: loop {
            let rest = put(&mut terms, self.operand(behind, operator))?;
            let Some((_, more)) = after(rest, operator.sign()) else {
                return Ok((operator.term(terms), rest));
            };
            behind = more;
        }
    }

    // An operand of a chain.
    #[cycle(read)]
    fn operand(self, tokens: Rest, operator: Infix) -> Result<(Term, Rest), Stop>
        requires { self.level ≤ MOST_LEVELS }
        ensures { Gives (λ term. ReadsOperand operator self.profile self.level (tree_of term))
            (in_operand operator self.profile self.level) tokens.entry result }
    {
        match operator {
            Infix::Xor => self.product(tokens),
            Infix::And => self.application(tokens),
        }
    }

    #[cycle(read)]
    fn application(self, tokens: Rest) -> Result<(Term, Rest), Stop>
        requires { self.level ≤ MOST_LEVELS }
        ensures { GivesAt g.application self tree_of tokens.entry result }
    {
        if let Some((at, behind)) = after_word(tokens, Word::Append) {
            return self.append(behind, at);
        }
        let Some((operator, behind)) = first_operator(self.alloc, self.profile, tokens)? else {
            return self.atoms(tokens);
        };
        self.operated(operator, behind)
    }

    // An operator with its operand.
    #[cycle(read)]
    fn operated(self, operator: Operator, tokens: Rest) -> Result<(Term, Rest), Stop>
        requires { self.level ≤ MOST_LEVELS }
        ensures { Gives (λ term. ReadsOperated self.profile self.level operator (tree_of term))
            (in_atom self.profile self.level) tokens.entry result }
    {
        let (operator, (operand, rest)) = both(operator, self.atom(tokens))?;
        let term = operation(self.alloc, operator, operand)?;
        Ok((term, rest))
    }

    // The two operands behind an `append`.
    #[cycle(read)]
    fn append(self, tokens: Rest, at: Place) -> Result<(Term, Rest), Stop>
        requires { self.level ≤ MOST_LEVELS }
        ensures { Gives (λ term. ReadsAppend self.profile self.level at (tree_of term))
            (in_append self.profile self.level) tokens.entry result }
    {
        let (first, rest) = self.atom(tokens)?;
        let (first, (second, rest)) = both(first, self.atom(rest))?;
        let term = joined(self.alloc, first, second, at)?;
        Ok((term, rest))
    }

    // An atom, and its arguments.
    #[cycle(read)]
    fn atoms(self, tokens: Rest) -> Result<(Term, Rest), Stop>
        requires { self.level ≤ MOST_LEVELS }
        ensures { Gives (λ term. ReadsAtoms self.profile self.level (tree_of term))
            (in_application self.profile self.level) tokens.entry result }
    {
        let (head, mut rest) = self.atom(tokens)?;
        if !begins_base(rest) {
            return Ok((head, rest));
        }
        let head = Box::new(self.alloc, head)?;
        let mut arguments = Vec::new(self.alloc);
        'arguments: loop {
            rest = put(&mut arguments, self.atom(rest))?;
            if !begins_base(rest) {
                return Ok((Term::Apply(head, arguments), rest));
            }
        }
    }

    #[cycle(read)]
    fn atom(self, tokens: Rest) -> Result<(Term, Rest), Stop>
        requires { self.level ≤ MOST_LEVELS }
        ensures { GivesAt g.atom self tree_of tokens.entry result }
    {
        let read = self.base(tokens);
        if !is_part_behind(&read) {
            return read;
        }
        let (inner, rest) = read?;
        let (inner, (parts, rest)) = both(inner, self.all_parts(rest))?;
        let term = with_parts(self.alloc, inner, parts)?;
        Ok((term, rest))
    }

    #[cycle(read)]
    fn base(self, tokens: Rest) -> Result<(Term, Rest), Stop>
        requires { self.level ≤ MOST_LEVELS }
        ensures { GivesAt g.base self tree_of tokens.entry result }
    {
        let Some((opener, at, behind)) = first_opener(tokens) else {
            return single_base(tokens);
        };
        let level = self.open(tokens)?;
        Reader { level, ..self }.opened(behind, opener, at)
    }

    // What stands behind the token that opens a level, which has this place, at the level inside.
    #[cycle(read)]
    fn opened(self, tokens: Rest, opener: Opener, at: Place) -> Result<(Term, Rest), Stop>
        requires { self.level ≤ MOST_LEVELS }
        ensures { Gives (λ term. ReadsOpened opener self.profile self.level at (tree_of term))
            (in_opened opener self.profile self.level) tokens.entry result }
    {
        match opener {
            Opener::Register => self.register(tokens, at),
            Opener::Bracket => self.closed(tokens, Sign::CloseRound),
            Opener::Block => self.block(tokens, at),
        }
    }

    // An expression and the sign that ends it.
    #[cycle(read)]
    fn closed(self, tokens: Rest, end: Sign) -> Result<(Term, Rest), Stop>
        requires { self.level ≤ MOST_LEVELS }
        ensures { Gives (λ term. Reads (closed_by self.profile end self.level) (tree_of term, tt))
            (closed_by self.profile end self.level) tokens.entry result }
    {
        let (term, rest) = self.expression(tokens)?;
        both(term, expect(rest, end))
    }

    // The elements of a register behind its `reg`.
    #[cycle(read)]
    fn register(self, tokens: Rest, at: Place) -> Result<(Term, Rest), Stop>
        requires { self.level ≤ MOST_LEVELS }
        ensures { Gives (λ term. ReadsRegister self.profile self.level at (tree_of term))
            (in_register self.profile self.level) tokens.entry result }
    {
        let mut behind = expect(tokens, Sign::OpenSquare)?;
        let mut elements = Vec::new(self.alloc);
        'elements: loop {
            let rest = put(&mut elements, self.expression(behind))?;
            let Some((_, more)) = after(rest, Sign::Semi) else {
                let rest = expect(rest, Sign::CloseSquare)?;
                return Ok((Term::Reg(elements, at), rest));
            };
            behind = more;
        }
    }

    // The items and the last expression of a block behind its `{`.
    #[cycle(read)]
    fn block(self, tokens: Rest, at: Place) -> Result<(Term, Rest), Stop>
        requires { self.level ≤ MOST_LEVELS }
        ensures { Gives (λ term. ReadsBlock self.profile self.level at (tree_of term))
            (in_block self.profile self.level) tokens.entry result }
    {
        let mut items = Vec::new(self.alloc);
        let mut rest = tokens;
        'items: loop {
            let (next, left) = self.item_or_last(rest)?;
            rest = left;
            match next {
                Piece::Item(item) => items.push(item)?,
                Piece::Last(last) => {
                    return Ok((Term::Block(items, Box::new(self.alloc, last)?, at), rest));
                }
            }
        }
    }

    #[cycle(read)]
    fn item_or_last(self, tokens: Rest) -> Result<(Piece, Rest), Stop>
        requires { self.level ≤ MOST_LEVELS }
        ensures { Gives (ReadsPiece self.profile self.level) (in_block self.profile self.level)
            tokens.entry result }
    {
        if begins_item(self.profile, tokens) {
            let (item, rest) = self.item(tokens)?;
            return Ok((Piece::Item(item), rest));
        }
        let (term, rest) = self.expression(tokens)?;
        piece_of(term, rest)
    }

    // An item that is no expression.
    #[cycle(read)]
    fn item(self, tokens: Rest) -> Result<(Item, Rest), Stop>
        requires { self.level ≤ MOST_LEVELS }
        ensures { GivesAt g.item self item_tree_of tokens.entry result }
    {
        if let Some((_, behind)) = after_word(tokens, Word::Let) {
            return self.binding(behind);
        }
        let Some((at, behind)) = after_for(self.profile, tokens) else {
            return Err(Stop::Syntax(tokens.len()));
        };
        self.repetition(behind, at)
    }

    // What a `let` binds, behind the word.
    #[cycle(read)]
    fn binding(self, tokens: Rest) -> Result<(Item, Rest), Stop>
        requires { self.level ≤ MOST_LEVELS }
        ensures { Gives (λ item. ReadsBinding self.profile self.level (item_tree_of item))
            (in_binding self.profile self.level) tokens.entry result }
    {
        let (name, names, rest) = bound_names(self.alloc, tokens)?;
        let (body, rest) = self.closed(rest, Sign::Semi)?;
        let value = bound_value(self.alloc, names, body)?;
        Ok((Item::Let { name, value }, rest))
    }

    // A `for` behind the word, which has this place.
    #[cycle(read)]
    fn repetition(self, tokens: Rest, at: Place) -> Result<(Item, Rest), Stop>
        requires { self.level ≤ MOST_LEVELS }
        ensures { Gives (λ item. ReadsFor self.profile self.level at (item_tree_of item))
            (in_for self.profile (self.level + 1)) tokens.entry result }
    {
        let (name, ends, rest) = self.range(tokens)?;
        let Some((_, behind)) = after(rest, Sign::OpenCurly) else {
            return Err(Stop::Syntax(rest.len()));
        };
        let level = self.open(rest)?;
        let (items, rest) = Reader { level, ..self }.loop_items(behind)?;
        Ok((
            Item::For {
                name,
                ends,
                items,
                at,
            },
            rest,
        ))
    }

    // The items of a `for` behind its `{`, and its end.
    #[cycle(read)]
    fn loop_items(self, tokens: Rest) -> Result<(Vec<Item>, Rest), Stop>
        requires { self.level ≤ MOST_LEVELS }
        ensures { Gives (λ items. ReadsLoop self.profile self.level (map item_tree_of items.items))
            (in_loop self.profile self.level) tokens.entry result }
    {
        let mut items = Vec::new(self.alloc);
        let mut rest = tokens;
        'items: loop {
            rest = put(&mut items, self.loop_item(rest))?;
            if let Some((_, behind)) = after(rest, Sign::CloseCurly) {
                let rest = expect(behind, Sign::Semi)?;
                return Ok((items, rest));
            }
        }
    }

    // An item of a `for`.
    #[cycle(read)]
    fn loop_item(self, tokens: Rest) -> Result<(Item, Rest), Stop>
        requires { self.level ≤ MOST_LEVELS }
        ensures { GivesAt g.loop_item self item_tree_of tokens.entry result }
    {
        if begins_item(self.profile, tokens) {
            return self.item(tokens);
        }
        let (term, rest) = self.closed(tokens, Sign::Semi)?;
        Ok((Item::Do(term), rest))
    }
}
