//! The nodes of formulas over nodes that are there (SMT-LIB 2.6, theory Core). Each call takes numbers of nodes of the table
//! and gives the number of a node, which may have been there before. There is an error where memory is wanting, or where the
//! table is full on the way. After an error of a public call the table is as it was. The private ones that add several nodes
//! leave some behind.
ghost use Rattle.std.specs.Prelude.{◌≡◌, ◌<◌, ◌+◌, ◌-◌, ◌∷◌, ◌++◌, ℕ, List, [], length, map, take, drop, slice_index, Err, IfErr, IfOk, OnErr, OnOk, if◌then◌else◌};
ghost use Rattle.idl_node.specs.code.Made.{Makes};
ghost use Rattle.idl_node.specs.code.Repeats.{AreBelow, AreRows, AreToldApart, HasRepeats, IsRow, LeadsBack};
ghost use Rattle.idl_node.specs.Making.{denied, conjoined, disjoined, each_pair, equal, different, chosen, exclusive, implied, all_equal, all_different, constant, falsehood, not_or, or_not, and_not, not_and};
ghost use Rattle.idl_node.specs.Nodes.{placed, conjunction, disjunction};

use crate::error::NodeError;
use crate::node::Node;
use crate::nodes::Nodes;
use crate::repeated::{place_before, repeats};
use std::alloc::Global;

impl Nodes {
    /// The node that denies `true`.
    fn add_falsehood(&mut self) -> Result<u32, NodeError>
        ensures makes { Makes self.new (falsehood self.old) result }
        ensures front { take (length self.old) self.new ≡ self.old }
    {
        let yes = self.place(Node::True)?;
        self.negate(yes)
    }

    /// `true`, or `false` as the node that denies it. It adds two nodes at most.
    pub fn constant(&mut self, value: bool) -> Result<u32, NodeError>
        ensures makes { Makes self.new (if value then constant self.old else falsehood self.old) result }
        ensures err { OnErr result (self.new ≡ self.old) }
        ensures front { take (length self.old) self.new ≡ self.old }
    {
        if value {
            return self.place(Node::True);
        }
        let before = self.len();
        let made = self.add_falsehood();
        self.settle(before, made)
    }

    /// `not`: of an atom the atom of the negation, of a `not` its member. It adds one node at most.
    pub fn negate(&mut self, number: u32) -> Result<u32, NodeError>
        ensures makes { Makes self.new (denied self.old number) result }
        ensures err { OnErr result (self.new ≡ self.old) }
        ensures front { take (length self.old) self.new ≡ self.old }
    {
        let Some(node) = self.as_slice().get(number as usize) else {
            return self.place(Node::Not(number));
        };
        match node {
            Node::Atom(literal) => {
                let opposite = stn_core::negate(*literal);
                self.place(Node::Atom(opposite))
            }
            Node::Not(member) => Ok(*member),
            _ => self.place(Node::Not(number)),
        }
    }

    /// `and`; of one node that node, of none a node that is true.
    pub fn conjoin(&mut self, members: Vec<u32>) -> Result<u32, NodeError>
        ensures makes { Makes self.new (conjoined self.old members.items) result }
        ensures err { OnErr result (self.new ≡ self.old) }
        ensures front { take (length self.old) self.new ≡ self.old }
    {
        if members.len() != 1 {
            return self.place(Node::And(members));
        }
        Ok(members[0])
    }

    /// `or`; of one node that node, of none a node that is false.
    pub fn disjoin(&mut self, members: Vec<u32>) -> Result<u32, NodeError>
        ensures makes { Makes self.new (disjoined self.old members.items) result }
        ensures err { OnErr result (self.new ≡ self.old) }
        ensures front { take (length self.old) self.new ≡ self.old }
    {
        if members.len() != 1 {
            return self.place(Node::Or(members));
        }
        Ok(members[0])
    }

    /// `and` of two nodes.
    fn both(&mut self, alloc: Global, a: u32, b: u32) -> Result<u32, NodeError>
        ensures makes { Makes self.new (placed self.old (conjunction (a ∷ b ∷ []))) result }
        ensures front { take (length self.old) self.new ≡ self.old }
    {
        let members = vec![in alloc; a, b]?;
        self.place(Node::And(members))
    }

    /// `or` of two nodes.
    fn either(&mut self, alloc: Global, a: u32, b: u32) -> Result<u32, NodeError>
        ensures makes { Makes self.new (placed self.old (disjunction (a ∷ b ∷ []))) result }
        ensures front { take (length self.old) self.new ≡ self.old }
    {
        let members = vec![in alloc; a, b]?;
        self.place(Node::Or(members))
    }

    /// `(or (not a) b)`.
    fn not_or(&mut self, alloc: Global, a: u32, b: u32) -> Result<u32, NodeError>
        ensures makes { Makes self.new (not_or self.old a b) result }
        ensures front { take (length self.old) self.new ≡ self.old }
    {
        let not_a = self.negate(a)?;
        self.either(alloc, not_a, b)
    }

    /// `(or a (not b))`.
    fn or_not(&mut self, alloc: Global, a: u32, b: u32) -> Result<u32, NodeError>
        ensures makes { Makes self.new (or_not self.old a b) result }
        ensures front { take (length self.old) self.new ≡ self.old }
    {
        let not_b = self.negate(b)?;
        self.either(alloc, a, not_b)
    }

    /// `(and a (not b))`.
    fn and_not(&mut self, alloc: Global, a: u32, b: u32) -> Result<u32, NodeError>
        ensures makes { Makes self.new (and_not self.old a b) result }
        ensures front { take (length self.old) self.new ≡ self.old }
    {
        let not_b = self.negate(b)?;
        self.both(alloc, a, not_b)
    }

    /// `(and (not a) b)`.
    fn not_and(&mut self, alloc: Global, a: u32, b: u32) -> Result<u32, NodeError>
        ensures makes { Makes self.new (not_and self.old a b) result }
        ensures front { take (length self.old) self.new ≡ self.old }
    {
        let not_a = self.negate(a)?;
        self.both(alloc, not_a, b)
    }

    /// Two formulas are equal.
    fn equal(&mut self, alloc: Global, a: u32, b: u32) -> Result<u32, NodeError>
        ensures makes { Makes self.new (equal self.old a b) result }
        ensures front { take (length self.old) self.new ≡ self.old }
    {
        let forth = self.not_or(alloc, a, b)?;
        let back = self.or_not(alloc, a, b)?;
        self.both(alloc, forth, back)
    }

    /// Two formulas differ.
    fn different(&mut self, alloc: Global, a: u32, b: u32) -> Result<u32, NodeError>
        ensures makes { Makes self.new (different self.old a b) result }
        ensures front { take (length self.old) self.new ≡ self.old }
    {
        let first = self.and_not(alloc, a, b)?;
        let second = self.not_and(alloc, a, b)?;
        self.either(alloc, first, second)
    }

    /// `yes` where the condition is true, else `no`.
    fn add_choice(
        &mut self,
        alloc: Global,
        condition: u32,
        yes: u32,
        no: u32,
    ) -> Result<u32, NodeError>
        ensures makes { Makes self.new (chosen self.old condition yes no) result }
        ensures front { take (length self.old) self.new ≡ self.old }
    {
        let then = self.not_or(alloc, condition, yes)?;
        let otherwise = self.either(alloc, condition, no)?;
        self.both(alloc, then, otherwise)
    }

    /// `ite` of three formulas: `yes` where the condition is true, else `no`. It adds four nodes at most.
    pub fn choose(
        &mut self,
        alloc: Global,
        condition: u32,
        yes: u32,
        no: u32,
    ) -> Result<u32, NodeError>
        ensures makes { Makes self.new (chosen self.old condition yes no) result }
        ensures err { OnErr result (self.new ≡ self.old) }
        ensures front { take (length self.old) self.new ≡ self.old }
    {
        let before = self.len();
        let made = self.add_choice(alloc, condition, yes, no);
        self.settle(before, made)
    }

    /// `xor`, from the left.
    fn add_exclusion(&mut self, alloc: Global, first: u32, others: &[u32]) -> Result<u32, NodeError>
        ensures makes { Makes self.new (exclusive self.old first others.now) result }
        ensures front { take (length self.old) self.new ≡ self.old }
    {
        let mut number = first;
        for other in others {
            number = self.different(alloc, number, *other)?;
        }
        Ok(number)
    }

    /// `xor` of the first and the others, from the left. It adds at most five nodes for each of the others.
    pub fn exclude(&mut self, alloc: Global, first: u32, others: &[u32]) -> Result<u32, NodeError>
        ensures makes { Makes self.new (exclusive self.old first others.now) result }
        ensures err { OnErr result (self.new ≡ self.old) }
        ensures front { take (length self.old) self.new ≡ self.old }
    {
        let before = self.len();
        let made = self.add_exclusion(alloc, first, others);
        self.settle(before, made)
    }

    /// An `or` in which each but the last is denied.
    fn add_implication(&mut self, alloc: Global, members: &[u32]) -> Result<u32, NodeError>
        ensures makes { Makes self.new (implied self.old [] members.now) result }
        ensures front { take (length self.old) self.new ≡ self.old }
    {
        let Some((last, premises)) = members.split_last() else {
            return self.disjoin(Vec::new(alloc));
        };
        let mut alternatives = Vec::new(alloc);
        for premise in premises {
            alternatives.push(self.negate(*premise)?)?;
        }
        alternatives.push(*last)?;
        self.disjoin(alternatives)
    }

    /// `=>`: an `or` in which each but the last is denied. Of no member it is false.
    pub fn imply(&mut self, alloc: Global, members: &[u32]) -> Result<u32, NodeError>
        ensures makes { Makes self.new (implied self.old [] members.now) result }
        ensures err { OnErr result (self.new ≡ self.old) }
        ensures front { take (length self.old) self.new ≡ self.old }
    {
        let before = self.len();
        let made = self.add_implication(alloc, members);
        self.settle(before, made)
    }

    /// Each equals its neighbour.
    fn add_equality(&mut self, alloc: Global, members: &[u32]) -> Result<u32, NodeError>
        ensures makes { Makes self.new (all_equal self.old members.now) result }
        ensures front { take (length self.old) self.new ≡ self.old }
    {
        let mut parts = Vec::new(alloc);
        for i in 1..members.len() {
            parts.push(self.equal(alloc, members[i - 1], members[i])?)?;
        }
        self.conjoin(parts)
    }

    /// `=` of formulas: each equals its neighbour. It adds at most five nodes for each two neighbours, and one.
    pub fn equate(&mut self, alloc: Global, members: &[u32]) -> Result<u32, NodeError>
        ensures makes { Makes self.new (all_equal self.old members.now) result }
        ensures err { OnErr result (self.new ≡ self.old) }
        ensures front { take (length self.old) self.new ≡ self.old }
    {
        let before = self.len();
        let made = self.add_equality(alloc, members);
        self.settle(before, made)
    }

    /// Two members differ. What was made of an equal pair is taken from the row so far.
    fn tell_two_apart(
        &mut self,
        alloc: Global,
        members: &[u32],
        earlier: &[usize],
        i: usize,
        j: usize,
        row: &[u32],
    ) -> Result<u32, NodeError>
        requires leads { LeadsBack members.now earlier.now }
        requires below { HasRepeats earlier.now → AreBelow (length self.old) members.now }
        requires order { i < j }
        requires within { j < length members.now }
        requires count { length row.now ≡ j - (i + 1) }
        requires row { HasRepeats earlier.now → IsRow (AreToldApart self.old) members.now i j row.now }
        ensures makes { Makes self.new (different self.old (slice_index members.now i) (slice_index members.now j)) result }
        ensures settled { IfOk result (λ k. HasRepeats earlier.now
            → AreToldApart self.new (slice_index members.now i) (slice_index members.now j) k) }
        ensures front { take (length self.old) self.new ≡ self.old }
    {
        let before = place_before(earlier, j);
        if i < before && before < j {
            return Ok(row[before - (i + 1)]);
        }
        let number = self.different(alloc, members[i], members[j])?;
        Ok(number)
    }

    /// A member differs from each behind it: a node for each.
    fn tell_others_apart(
        &mut self,
        alloc: Global,
        members: &[u32],
        earlier: &[usize],
        i: usize,
    ) -> Result<Vec<u32>, NodeError>
        requires leads { LeadsBack members.now earlier.now }
        requires below { HasRepeats earlier.now → AreBelow (length self.old) members.now }
        requires within { i < length members.now }
        ensures made { IfOk result (λ row. (before : List ℕ) (rest : List (ℕ × ℕ))
            → each_pair different self.old before (map (λ b. (slice_index members.now i, b)) (drop (i + 1) members.now) ++ rest)
            ≡ each_pair different self.new (before ++ row.items) rest) }
        ensures refused { IfErr result (λ why. (before : List ℕ) (rest : List (ℕ × ℕ)) → Makes self.new
            (each_pair different self.old before (map (λ b. (slice_index members.now i, b)) (drop (i + 1) members.now) ++ rest)) (Err why)) }
        ensures count { IfOk result (λ row. length row.items ≡ length members.now - (i + 1)) }
        ensures row { IfOk result (λ row. HasRepeats earlier.now
            → IsRow (AreToldApart self.new) members.now i (length members.now) row.items) }
        ensures front { take (length self.old) self.new ≡ self.old }
    {
        let mut row = Vec::new(alloc);
        for j in i + 1..members.len() {
            row.push(self.tell_two_apart(alloc, members, earlier, i, j, &row)?)?;
        }
        Ok(row)
    }

    /// The next member differs from each behind it: their nodes go behind the parts. Where it equals one before it, they stand there already.
    fn tell_next_apart(
        &mut self,
        alloc: Global,
        members: &[u32],
        earlier: &[usize],
        starts: &[usize],
        parts: &mut Vec<u32>,
    ) -> Result<(), NodeError>
        requires leads { LeadsBack members.now earlier.now }
        requires below { HasRepeats earlier.now → AreBelow (length self.old) members.now }
        requires within { length starts.now < length members.now }
        requires rows { AreRows (HasRepeats earlier.now) (AreToldApart self.old) members.now starts.now parts.old.items }
        ensures made { OnOk result ((rest : List (ℕ × ℕ)) → each_pair different self.old parts.old.items
            (map (λ b. (slice_index members.now (length starts.now), b)) (drop (length starts.now + 1) members.now) ++ rest)
            ≡ each_pair different self.new parts.new.items rest) }
        ensures refused { IfErr result (λ why. (rest : List (ℕ × ℕ)) → Makes self.new (each_pair different self.old parts.old.items
            (map (λ b. (slice_index members.now (length starts.now), b)) (drop (length starts.now + 1) members.now) ++ rest)) (Err why)) }
        ensures rows { OnOk result (AreRows (HasRepeats earlier.now) (AreToldApart self.new) members.now
            (starts.now ++ length parts.old.items ∷ []) parts.new.items) }
        ensures front { take (length self.old) self.new ≡ self.old }
    {
        let i = starts.len();
        let before = place_before(earlier, i);
        if before < i {
            let from = starts[before] + (i - before);
            parts.extend_from_within(from..from + (members.len() - (i + 1)))?;
            return Ok(());
        }
        let row = self.tell_others_apart(alloc, members, earlier, i)?;
        parts.extend_from_slice(&row)?;
        Ok(())
    }

    /// All pairs differ.
    fn add_difference(&mut self, alloc: Global, members: &[u32]) -> Result<u32, NodeError>
        ensures makes { Makes self.new (all_different self.old members.now) result }
        ensures front { take (length self.old) self.new ≡ self.old }
    {
        let earlier = repeats(alloc, members, self.len())?;
        let mut starts = Vec::new(alloc);
        let mut parts = Vec::new(alloc);
        for _i in 0..members.len() {
            let start = parts.len();
            self.tell_next_apart(alloc, members, &earlier, &starts, &mut parts)?;
            starts.push(start)?;
        }
        self.conjoin(parts)
    }

    /// `distinct` of formulas: all pairs differ. It adds at most five nodes for each pair, and one.
    pub fn tell_apart(&mut self, alloc: Global, members: &[u32]) -> Result<u32, NodeError>
        ensures makes { Makes self.new (all_different self.old members.now) result }
        ensures err { OnErr result (self.new ≡ self.old) }
        ensures front { take (length self.old) self.new ≡ self.old }
    {
        let before = self.len();
        let made = self.add_difference(alloc, members);
        self.settle(before, made)
    }
}
