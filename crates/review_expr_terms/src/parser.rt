//! From tokens to the tree.
ghost use Rattle.std.specs.Prelude.{◌≡◌, ◌+◌, ◌≤◌, List, length, map, option_map, false, IfOk, IfErr};
ghost use Rattle.review_expr_terms.specs.Grammar.{Tok, Tree, HasTree, listed};
ghost use Rattle.review_expr_terms.specs.Reading.{joint, members, primary, sign, unary};
ghost use Rattle.review_expr_terms.specs.Views.{IsShapeFault, toks, view, whole};
ghost use Rattle.review_expr_terms.specs.inner.Views.{Gives, capped, deeper, join, negated_part, no_sums, part_view, run_view, seen, seen_all, sign_of, term_part, with_join, with_part};

use crate::token::Token;
use crate::tree::Node;
use std::alloc::{AllocError, AllocFailed, Global};
use std::collections::VecDeque;

/// Why tokens have no tree. Of the first three, the first that applies is answered.
#[derive(Clone, Copy, PartialEq, Eq)]
pub enum ShapeFault {
    /// The grammar doesn't allow the tokens, even with AND and OR freely mixed.
    BadTerm,
    /// They are more than 32 deep.
    TooDeep,
    /// AND and OR join members of one level.
    Mixed,
    /// There was no memory for the tree. It may be tried again.
    Memory,
}

impl From<AllocError> for ShapeFault {
    ghost use Rattle.std.specs.Prelude.{◌≡◌};
    ghost use Rattle.review_expr_terms.specs.declared.parser.ShapeFault.TheVariants.{Memory};

    ghost from_gives = { λ _ e. e ≡ Memory };

    fn from(_error: AllocError) -> ShapeFault {
        ShapeFault::Memory
    }
}

impl<T: Drop> From<AllocFailed<T>> for ShapeFault {
    ghost use Rattle.std.specs.Prelude.{◌≡◌};
    ghost use Rattle.review_expr_terms.specs.declared.parser.ShapeFault.TheVariants.{Memory};

    ghost from_gives = { λ _ e. e ≡ Memory };

    fn from(_error: AllocFailed<T>) -> ShapeFault {
        ShapeFault::Memory
    }
}

/// Why a part was not read.
#[derive(Clone, Copy, PartialEq, Eq)]
enum Refusal {
    Grammar,
    Memory,
}

impl From<AllocError> for Refusal {
    ghost use Rattle.std.specs.Prelude.{◌≡◌};
    ghost use Rattle.review_expr_terms.specs.declared.parser.Refusal.TheVariants.{Memory};

    ghost from_gives = { λ _ e. e ≡ Memory };

    fn from(_error: AllocError) -> Refusal {
        Refusal::Memory
    }
}

impl<T: Drop> From<AllocFailed<T>> for Refusal {
    ghost use Rattle.std.specs.Prelude.{◌≡◌};
    ghost use Rattle.review_expr_terms.specs.declared.parser.Refusal.TheVariants.{Memory};

    ghost from_gives = { λ _ e. e ≡ Memory };

    fn from(_error: AllocFailed<T>) -> Refusal {
        Refusal::Memory
    }
}

/// What stands between two members.
#[derive(Clone, Copy, PartialEq, Eq)]
enum Joint {
    Blank,
    And,
    Or,
}

/// What stands in front of a member.
#[derive(Clone, Copy, PartialEq, Eq)]
enum Prefix {
    None,
    Not,
    Minus,
}

/// A member that was read. Depths past 32 count as 33.
#[derive(Drop)]
struct Part<W> {
    node: Node<W>,
    depth: u8,
    mixed: bool,
}

/// The members of a level so far.
#[derive(Drop)]
struct Run<W> {
    members: Vec<Node<W>>,
    has_and: bool,
    has_or: bool,
    depth: u8,
    mixed: bool,
}

fn deeper(depth: u8) -> u8
    ensures { result ≡ capped (depth + 1) }
{
    if depth < 33 { depth + 1 } else { 33 }
}

impl<W: Drop> Part<W> {
    fn term(word: Box<W>) -> Part<W>
        ensures { part_view result ≡ term_part word.value }
    {
        Part {
            node: Node::Term(word),
            depth: 1,
            mixed: false,
        }
    }

    fn negated(self, alloc: Global) -> Result<Part<W>, AllocError>
        ensures { IfOk result (λ p. part_view p ≡ negated_part (part_view self)) }
    {
        let depth = deeper(self.depth);
        let node = Node::Not(Box::new(alloc, self.node)?);
        Ok(Part {
            node,
            depth,
            mixed: self.mixed,
        })
    }

    fn grouped(self) -> Part<W>
        ensures { part_view result ≡ deeper (part_view self) }
    {
        let depth = deeper(self.depth);
        Part {
            node: self.node,
            depth,
            mixed: self.mixed,
        }
    }
}

impl<W: Drop> Run<W> {
    fn new(alloc: Global) -> Run<W>
        ensures { run_view result ≡ no_sums }
    {
        Run {
            members: Vec::new(alloc),
            has_and: false,
            has_or: false,
            depth: 0,
            mixed: false,
        }
    }

    fn push(self, part: Part<W>) -> Result<Run<W>, AllocError>
        ensures { IfOk result (λ r. run_view r ≡ with_part (run_view self) (part_view part)) }
    {
        let mut members = self.members;
        members.push(part.node)?;
        Ok(Run {
            members,
            has_and: self.has_and,
            has_or: self.has_or,
            depth: self.depth.max(part.depth),
            mixed: self.mixed || part.mixed,
        })
    }

    fn joined(self, joint: Joint) -> Run<W>
        ensures { run_view result ≡ with_join (run_view self) (join joint) }
    {
        let is_or = matches!(joint, Joint::Or);
        Run {
            members: self.members,
            has_and: self.has_and || !is_or,
            has_or: self.has_or || is_or,
            depth: self.depth,
            mixed: self.mixed,
        }
    }

    fn whole(self) -> Part<W>
        ensures { part_view result ≡ whole (run_view self) }
    {
        let mixed = (self.has_or && self.has_and) || self.mixed;
        let node = listed(self.members, self.has_or);
        Part {
            node,
            depth: self.depth,
            mixed,
        }
    }
}

/// The only member itself, else a list.
#[tactic(auto, using(crate::proofs::Steps::listed_many))]
fn listed<W: Drop>(mut members: Vec<Node<W>>, has_or: bool) -> Node<W>
    ensures { view result ≡ listed has_or (map view members.items) }
{
    if members.len() != 1 {
        return if has_or {
            Node::Or(members)
        } else {
            Node::And(members)
        };
    }
    match members.pop() {
        Some(only) => only,
        None => Node::And(members),
    }
}

fn take_joint<W: Drop>(tokens: &mut VecDeque<Token<W>>) -> Option<Joint>
    ensures { (option_map join result, toks tokens.new.items) ≡ joint (toks tokens.old.items) }
{
    match tokens.front() {
        None => None,
        Some(Token::Close) => None,
        Some(Token::And) => {
            let _sign = tokens.pop_front();
            Some(Joint::And)
        }
        Some(Token::Or) => {
            let _sign = tokens.pop_front();
            Some(Joint::Or)
        }
        Some(_) => Some(Joint::Blank),
    }
}

fn take_sign<W: Drop>(tokens: &mut VecDeque<Token<W>>) -> Prefix
    ensures { (sign_of result, toks tokens.new.items) ≡ sign (toks tokens.old.items) }
{
    match tokens.front() {
        Some(Token::Not) => {
            let _sign = tokens.pop_front();
            Prefix::Not
        }
        Some(Token::Minus) => {
            let _sign = tokens.pop_front();
            Prefix::Minus
        }
        _ => Prefix::None,
    }
}

#[cycle(levels)]
fn unary<W: Drop>(
    alloc: Global,
    tokens: &mut VecDeque<Token<W>>,
    fuel: u128,
) -> Result<Part<W>, Refusal>
    ensures { Gives (λ p. (part_view p, toks tokens.new.items)) result (option_map seen (unary fuel (toks tokens.old.items))) }
{
    if fuel == 0 {
        return Err(Refusal::Grammar);
    }
    match take_sign(tokens) {
        Prefix::Not => {
            let part = unary(alloc, tokens, fuel - 1)?;
            Ok(part.negated(alloc)?)
        }
        Prefix::Minus => {
            let member = primary(alloc, tokens, fuel - 1)?;
            Ok(member.negated(alloc)?)
        }
        Prefix::None => {
            let part = primary(alloc, tokens, fuel - 1)?;
            Ok(part)
        }
    }
}

#[cycle(levels)]
fn primary<W: Drop>(
    alloc: Global,
    tokens: &mut VecDeque<Token<W>>,
    fuel: u128,
) -> Result<Part<W>, Refusal>
    ensures { Gives (λ p. (part_view p, toks tokens.new.items)) result (option_map seen (primary false (members fuel) (toks tokens.old.items))) }
{
    match tokens.pop_front() {
        Some(Token::Word(word)) => Ok(Part::term(word)),
        Some(Token::Open) => {
            let run = members(alloc, Run::new(alloc), tokens, fuel)?;
            match tokens.pop_front() {
                Some(Token::Close) => Ok(run.whole().grouped()),
                _ => Err(Refusal::Grammar),
            }
        }
        _ => Err(Refusal::Grammar),
    }
}

#[cycle(levels)]
fn members<W: Drop>(
    alloc: Global,
    run: Run<W>,
    tokens: &mut VecDeque<Token<W>>,
    fuel: u128,
) -> Result<Run<W>, Refusal>
    ensures { Gives (λ r. (run_view r, toks tokens.new.items)) result (option_map (seen_all (run_view run)) (members fuel (toks tokens.old.items))) }
{
    if fuel == 0 {
        return Err(Refusal::Grammar);
    }
    let part = unary(alloc, tokens, fuel - 1)?;
    let run = run.push(part)?;
    match take_joint(tokens) {
        None => Ok(run),
        Some(joint) => {
            let run = members(alloc, run.joined(joint), tokens, fuel - 1)?;
            Ok(run)
        }
    }
}

/// The tree of tokens, or the first fault that applies. Parentheses within one another, NOT and
/// minus take stack, whatever a term is: some 1,100 bytes for a pair of parentheses.
pub fn parse<W: Drop>(alloc: Global, mut tokens: VecDeque<Token<W>>) -> Result<Node<W>, ShapeFault>
    ensures tree { IfOk result (λ node. HasTree (toks tokens.items) (view node)) }
    ensures fault { IfErr result (IsShapeFault (toks tokens.items)) }
{
    let fuel = 2 * (tokens.len() as u128) + 1;
    let run = match members(alloc, Run::new(alloc), &mut tokens, fuel) {
        Ok(run) => run,
        Err(Refusal::Grammar) => return Err(ShapeFault::BadTerm),
        Err(Refusal::Memory) => return Err(ShapeFault::Memory),
    };
    if tokens.len() > 0 {
        return Err(ShapeFault::BadTerm);
    }
    let part = run.whole();
    if part.depth > 32 {
        return Err(ShapeFault::TooDeep);
    }
    if part.mixed {
        return Err(ShapeFault::Mixed);
    }
    Ok(part.node)
}

/// The law that tokens have at most one tree.
pub fn one_tree<W: Drop>()
    ensures { (ts : List (Tok W)) (t u : Tree W) → HasTree ts t → HasTree ts u → t ≡ u }
{}
