//! The clauses of a node, written behind others.
ghost use Rattle.std.specs.Prelude.{◌≡◌, ◌<◌, ◌∷◌, ◌++◌, [], ℕ, List, length, map, IfOk, OnOk, slice_index, true};
ghost use Rattle.idl_node.specs.Nodes.{NodeValue, node_value, shown};
ghost use Rattle.clause_form.specs.code.Marked.{marked_clauses, table_of, ForNumbers, Appends};
ghost use Rattle.clause_form.specs.code.Marking.{AreMarks, ArePolarityMarks, denied_member, literal_pair, signed_literal};
ghost use Rattle.clause_form.specs.Polarity.{Polarity, node_at};
ghost use Rattle.clause_form.specs.ClauseForm.{stands, fails, body_literal, literal_of, asserted_clauses, denied_clauses, inner_clauses, clauses_below};

use crate::form::{Form, Marks};
use crate::marks::PolarityMarks;
use idl_node::Node;
use std::alloc::{AllocError, Global};
use stn_core::{Clause, Literal, negate};

/// That an inner node is true, by its fresh point, or that it's false.
fn stands(point: u32) -> Literal
    ensures { result ≡ stands point }
{
    Literal {
        x: point,
        y: 0,
        c: 0,
    }
}

fn fails(point: u32) -> Literal
    ensures { result ≡ fails point }
{
    Literal {
        x: 0,
        y: point,
        c: -1,
    }
}

fn unit_clause(alloc: Global, literal: Literal) -> Result<Clause, AllocError>
    ensures { IfOk result (λ clause. clause ≡ literal ∷ []) }
{
    Ok(Clause::from_slice(alloc, [literal].as_slice())?)
}

/// The member of a `not`.
fn denied_member(nodes: &[Node], number: u32) -> Option<u32>
    ensures { result ≡ denied_member (node_at (shown nodes.now) number) }
{
    match nodes.get(number as usize) {
        Some(Node::Not(member)) => Some(*member),
        _ => None,
    }
}

impl<'a> Form<'a> {
    /// The literal of a node that is no `not`.
    fn body_literal(&self, number: u32) -> Literal
        ensures { ForNumbers self.now (λ points inner.
            result ≡ body_literal points inner number (node_at (table_of self.now) number)) }
    {
        let place = number as usize;
        match self.nodes.get(place) {
            None | Some(Node::True) => stands(0),
            Some(Node::Atom(literal)) => *literal,
            Some(_) => stands(self.fresh[place]),
        }
    }

    fn literal(&self, number: u32) -> Literal
        ensures { ForNumbers self.now (λ points inner.
            result ≡ literal_of points (table_of self.now) inner number) }
    {
        match denied_member(self.nodes, number) {
            Some(member) => negate(self.body_literal(member)),
            None => self.body_literal(number),
        }
    }

    /// The literal, or its negation.
    fn signed_literal(&self, number: u32, denied: bool) -> Literal
        ensures { ForNumbers self.now (λ points inner.
            result ≡ signed_literal denied points (table_of self.now) inner number) }
    {
        let literal = self.literal(number);
        if denied { negate(literal) } else { literal }
    }

    fn append_literals(
        &self,
        literals: &mut Vec<Literal>,
        members: &[u32],
        denied: bool,
    ) -> Result<(), AllocError>
        ensures { OnOk result (Appends self.now literals.old.items literals.new.items
            (λ points inner. map (signed_literal denied points (table_of self.now) inner) members.now)) }
    {
        for member in members {
            literals.push(self.signed_literal(*member, denied))?;
        }
        Ok(())
    }

    /// One clause: the members' literals, or their negations.
    fn members_clause(
        &self,
        alloc: Global,
        members: &[u32],
        denied: bool,
    ) -> Result<Clause, AllocError>
        ensures { IfOk result (λ clause. ForNumbers self.now (λ points inner.
            clause ≡ map (signed_literal denied points (table_of self.now) inner) members.now)) }
    {
        let mut literals = Vec::with_capacity(alloc, members.len())?;
        self.append_literals(&mut literals, members, denied)?;
        Ok(Clause::new(literals))
    }

    /// One clause: this literal, and behind it the members'.
    fn longer_clause(
        &self,
        alloc: Global,
        first: Literal,
        members: &[u32],
        denied: bool,
    ) -> Result<Clause, AllocError>
        ensures { IfOk result (λ clause. ForNumbers self.now (λ points inner.
            clause ≡ first ∷ map (signed_literal denied points (table_of self.now) inner) members.now)) }
    {
        let mut literals = vec![in alloc; first]?;
        self.append_literals(&mut literals, members, denied)?;
        Ok(Clause::new(literals))
    }

    fn pair_clause(
        &self,
        alloc: Global,
        first: Literal,
        number: u32,
        denied: bool,
    ) -> Result<Clause, AllocError>
        ensures { IfOk result (λ clause. ForNumbers self.now (λ points inner.
            clause ≡ literal_pair first denied points (table_of self.now) inner number)) }
    {
        let second = self.signed_literal(number, denied);
        Ok(Clause::from_slice(alloc, [first, second].as_slice())?)
    }

    /// A clause for each member: this literal, and the member's.
    fn append_pairs(
        &self,
        alloc: Global,
        clauses: &mut Vec<Clause>,
        first: Literal,
        members: &[u32],
        denied: bool,
    ) -> Result<(), AllocError>
        ensures { OnOk result (Appends self.now clauses.old.items clauses.new.items
            (λ points inner. map (literal_pair first denied points (table_of self.now) inner) members.now)) }
    {
        for member in members {
            clauses.push(self.pair_clause(alloc, first, *member, denied)?)?;
        }
        Ok(())
    }

    fn append_asserted(
        &self,
        alloc: Global,
        clauses: &mut Vec<Clause>,
        node: &Node,
    ) -> Result<(), AllocError>
        ensures { OnOk result ((k : ℕ) → Appends self.now clauses.old.items clauses.new.items
            (λ points inner. asserted_clauses points (table_of self.now) inner k (node_value node.now))) }
    {
        match node {
            Node::True => clauses.push(unit_clause(alloc, stands(0))?)?,
            Node::Atom(literal) => clauses.push(unit_clause(alloc, *literal)?)?,
            Node::Or(members) => clauses.push(self.members_clause(alloc, members, false)?)?,
            Node::Not(_) | Node::And(_) => {}
        }
        Ok(())
    }

    fn append_denied(
        &self,
        alloc: Global,
        clauses: &mut Vec<Clause>,
        node: &Node,
    ) -> Result<(), AllocError>
        ensures { OnOk result ((k : ℕ) → Appends self.now clauses.old.items clauses.new.items
            (λ points inner. denied_clauses points (table_of self.now) inner k (node_value node.now))) }
    {
        match node {
            Node::True => clauses.push(unit_clause(alloc, negate(stands(0)))?)?,
            Node::Atom(literal) => clauses.push(unit_clause(alloc, negate(*literal))?)?,
            Node::And(members) => clauses.push(self.members_clause(alloc, members, true)?)?,
            Node::Not(_) | Node::Or(_) => {}
        }
        Ok(())
    }

    /// An inner node is true exactly where its members say so.
    fn append_inner(
        &self,
        alloc: Global,
        clauses: &mut Vec<Clause>,
        point: u32,
        node: &Node,
    ) -> Result<(), AllocError>
        ensures { OnOk result (Appends self.now clauses.old.items clauses.new.items
            (λ points inner. inner_clauses points (table_of self.now) inner point (node_value node.now))) }
    {
        match node {
            Node::And(members) => {
                self.append_pairs(alloc, clauses, fails(point), members, false)?;
                clauses.push(self.longer_clause(alloc, stands(point), members, true)?)?;
            }
            Node::Or(members) => {
                clauses.push(self.longer_clause(alloc, fails(point), members, false)?)?;
                self.append_pairs(alloc, clauses, stands(point), members, true)?;
            }
            Node::True | Node::Atom(_) | Node::Not(_) => {}
        }
        Ok(())
    }

    /// The clauses of a node: where it's asserted, where it's denied, where it's inner.
    fn append_node(
        &self,
        alloc: Global,
        clauses: &mut Vec<Clause>,
        number: usize,
        marks: Marks,
    ) -> Result<(), AllocError>
        requires within { number < length self.now.nodes.now }
        ensures { OnOk result (Appends self.now clauses.old.items clauses.new.items
            (λ points inner. marked_clauses marks points (table_of self.now) inner number)) }
    {
        let node = &self.nodes[number];
        if marks.asserted {
            self.append_asserted(alloc, clauses, node)?;
        }
        if marks.denied {
            self.append_denied(alloc, clauses, node)?;
        }
        if marks.inner {
            self.append_inner(alloc, clauses, self.fresh[number], node)?;
        }
        Ok(())
    }

    /// The clauses of all nodes, by ascending number.
    pub fn clauses(
        &self,
        alloc: Global,
        polarity: &PolarityMarks,
        inner: &[bool],
    ) -> Result<Vec<Clause>, AllocError>
        requires in_asserted { length polarity.now.asserted.items ≡ length self.now.nodes.now }
        requires in_denied { length polarity.now.denied.items ≡ length self.now.nodes.now }
        requires in_inner { length inner.now ≡ length self.now.nodes.now }
        ensures { IfOk result (λ clauses. (p : Polarity) → ForNumbers self.now (λ points numbers.
            ArePolarityMarks (length self.now.nodes.now) polarity.now.asserted.items
            polarity.now.denied.items p
            → AreMarks (length self.now.nodes.now) inner.now numbers
            → clauses.items ≡ clauses_below points (table_of self.now) p numbers
            (length self.now.nodes.now))) }
    {
        let mut clauses = Vec::new(alloc);
        for number in 0..self.nodes.len() {
            let marks = Marks {
                asserted: polarity.asserted[number],
                denied: polarity.denied[number],
                inner: inner[number],
            };
            self.append_node(alloc, &mut clauses, number, marks)?;
        }
        Ok(clauses)
    }
}
