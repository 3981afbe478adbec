use crate::literal::Literal;
use std::alloc::{AllocError, Global};

/// What the order of the lowerings goes by. None of it is trusted: a number is looked at before it is used.
pub struct Tables {
    /// for each point 1 more than the place of its newest literal, by second points, or 0
    pub heads: Vec<usize>,
    /// for each literal 1 more than the place of the next older one of its second point, or 0
    pub nexts: Vec<usize>,
    /// for each point the literal that is to be looked at next
    pub at: Vec<usize>,
    /// for each point 0, or 1 on the path, or 2 in the order
    pub marks: Vec<usize>,
    /// for each point the number of the literal by which the path came to it
    pub tree: Vec<usize>,
    /// for each point the number of the literal that lowered it last
    pub by: Vec<usize>,
    /// for each point 1 where its value changed since it was looked at
    pub waiting: Vec<usize>,
    pub active: Vec<u32>,
    pub path: Vec<u32>,
    pub order: Vec<u32>,
}

impl Drop for Tables {
    fn drop(self) {
        let Tables {
            heads,
            nexts,
            at,
            marks,
            tree,
            by,
            waiting,
            active,
            path,
            order,
        } = self;
        drop(heads);
        drop(nexts);
        drop(at);
        drop(marks);
        drop(tree);
        drop(by);
        drop(waiting);
        drop(active);
        drop(path);
        drop(order);
    }
}

pub fn read(numbers: &[usize], place: usize) -> usize {
    if place < numbers.len() {
        numbers[place]
    } else {
        0
    }
}

pub fn write(numbers: &mut [usize], place: usize, number: usize) {
    if place < numbers.len() {
        numbers[place] = number;
    }
}

fn link(literals: &[Literal], heads: &mut [usize], nexts: &mut [usize]) {
    let mut number = 0usize;
    'literals: for literal in literals {
        let y = literal.y as usize;
        write(nexts, number, read(heads, y));
        number = number.saturating_add(1);
        write(heads, y, number);
    }
}

fn all_points(alloc: Global, points: u32) -> Result<Vec<u32>, AllocError> {
    let mut active = Vec::new(alloc);
    'points: for point in 0..points {
        active.push(point)?;
    }
    Ok(active)
}

impl Tables {
    pub fn start(alloc: Global, points: u32, literals: &[Literal]) -> Result<Self, AllocError> {
        let count = points as usize;
        let mut heads = vec![in alloc; 0usize; count]?;
        let mut nexts = vec![in alloc; 0usize; literals.len()]?;
        link(literals, &mut heads, &mut nexts);
        Ok(Tables {
            heads,
            nexts,
            at: vec![in alloc; 0usize; count]?,
            marks: vec![in alloc; 0usize; count]?,
            tree: vec![in alloc; 0usize; count]?,
            by: vec![in alloc; 0usize; count]?,
            waiting: vec![in alloc; 1usize; count]?,
            active: all_points(alloc, points)?,
            path: Vec::new(alloc),
            order: Vec::new(alloc),
        })
    }

    /// The point goes to the path's end.
    pub fn enter(&mut self, point: u32) -> Result<(), AllocError> {
        let here = point as usize;
        self.path.push(point)?;
        write(&mut self.marks, here, 1);
        let first = read(&self.heads, here);
        write(&mut self.at, here, first);
        Ok(())
    }

    /// The path's last point goes to the order.
    pub fn leave(&mut self, point: u32) -> Result<(), AllocError> {
        self.path.pop();
        self.order.push(point)?;
        write(&mut self.marks, point as usize, 2);
        Ok(())
    }

    /// The number of the path's last point's next literal.
    pub fn turn(&mut self, point: u32) -> usize {
        let number = read(&self.at, point as usize);
        if number != 0 {
            let next = read(&self.nexts, number - 1);
            write(&mut self.at, point as usize, next);
        }
        number
    }

    /// A point was lowered by the literal with this number.
    pub fn lowered(&mut self, point: u32, number: usize) -> Result<(), AllocError> {
        write(&mut self.by, point as usize, number);
        if read(&self.waiting, point as usize) == 0 {
            write(&mut self.waiting, point as usize, 1);
            self.active.push(point)?;
        }
        Ok(())
    }
}
