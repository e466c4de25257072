// The rows of walks, as they are written.
use crate::expressions::{count, expression};
use crate::line::{Line, Refusal};
use gt_types::{Active, Boxed};
use gt_walk::{Arm, WalkRow};
use std::alloc::Global;

/// How deep elements and arms may lie in a row.
pub const MAX_NESTING: usize = 16;

// A switch has no more arms.
const MAX_ARMS: usize = 16;

/// The row that stands next.
#[cycle(reading)]
pub fn read_row(alloc: Global, line: &mut Line, nesting: usize) -> Result<WalkRow, Refusal> {
    if nesting == 0 {
        return Err(Refusal::Malformed);
    }
    if line.takes("rep") {
        return Ok(WalkRow::Rep {
            offset: line.number()?,
            n: line.number()?,
            size: line.number()?,
            elem: element(alloc, line, nesting - 1)?,
        });
    }
    if line.takes("tail") {
        return read_tail(alloc, line, nesting - 1);
    }
    if line.takes("switch") {
        return read_switch(alloc, line, nesting - 1);
    }
    read_plain(alloc, line)
}

#[cycle(reading)]
fn element(alloc: Global, line: &mut Line, nesting: usize) -> Result<Boxed<WalkRow>, Refusal> {
    Ok(Boxed::new(alloc, read_row(alloc, line, nesting)?)?)
}

// So many elements as an expression says.
#[cycle(reading)]
fn read_tail(alloc: Global, line: &mut Line, nesting: usize) -> Result<WalkRow, Refusal> {
    Ok(WalkRow::Tail {
        offset: line.number()?,
        len: expression(alloc, line)?,
        size: line.number()?,
        elem: element(alloc, line, nesting)?,
    })
}

// A pointer or a part.
fn read_plain(alloc: Global, line: &mut Line) -> Result<WalkRow, Refusal> {
    if line.takes("ptr") {
        return Ok(WalkRow::Ptr {
            offset: line.number()?,
            walk: line.number()?,
            count: count(alloc, line)?,
            reorder: false,
        });
    }
    if line.takes("sub") {
        return Ok(WalkRow::Sub {
            offset: line.number()?,
            walk: line.number()?,
        });
    }
    Err(Refusal::Malformed)
}

// A switch.
#[cycle(reading)]
fn read_switch(alloc: Global, line: &mut Line, nesting: usize) -> Result<WalkRow, Refusal> {
    let desc = expression(alloc, line)?;
    let arms = read_arms(alloc, line, nesting)?;
    Ok(WalkRow::Switch { desc, arms })
}

// The arms of a switch.
#[cycle(reading)]
fn read_arms(alloc: Global, line: &mut Line, nesting: usize) -> Result<Vec<Arm>, Refusal> {
    let mut arms = Vec::new(alloc);
    for _ in 0..MAX_ARMS {
        if !line.takes("|") {
            break;
        }
        arms.push(read_arm(alloc, line, nesting)?)?;
    }
    Ok(arms)
}

#[cycle(reading)]
fn read_arm(alloc: Global, line: &mut Line, nesting: usize) -> Result<Arm, Refusal> {
    let active = read_active(line)?;
    let row = if line.ends_at("|") {
        None
    } else {
        Some(element(alloc, line, nesting)?)
    };
    Ok(Arm { active, row })
}

// When an arm is chosen.
fn read_active(line: &mut Line) -> Result<Active, Refusal> {
    if line.takes("default") {
        return Ok(Active::Other);
    }
    match line.next()?.as_str().parse::<i64>() {
        Ok(tag) => Ok(Active::Tag(tag)),
        Err(_) => Err(Refusal::Malformed),
    }
}
