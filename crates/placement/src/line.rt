// A line of signs by how far it has come. Each step takes the line and gives the next. The lists are lent to it, as panels
// have fixed memory: the line keeps only their length.
use crate::refusal::Refusal;
use crate::settings::Settings;
use std::marker::PhantomData;

pub mod steps;

// The most signs of a line.
pub const MOST_SIGNS: usize = 256;

// How far a line has come: no value of these types is ever made.
#[derive(Clone, Copy)]
pub enum IsWritten {}

#[derive(Clone, Copy)]
pub enum IsClassed {}

#[derive(Clone, Copy)]
pub enum IsMapped {}

#[derive(Clone, Copy)]
pub enum IsSpaced {}

#[derive(Clone, Copy)]
pub enum IsPlaced {}

#[derive(Drop)]
pub struct Line<S> {
    len: usize,
    settings: Settings,
    step: PhantomData<S>,
}

pub type Written = Line<IsWritten>;

pub type Classed = Line<IsClassed>;

pub type Mapped = Line<IsMapped>;

pub type Spaced = Line<IsSpaced>;

pub type Placed = Line<IsPlaced>;

// A refused step: the line as it was, and why.
#[derive(Drop)]
pub struct Refused<L> {
    pub line: L,
    pub refusal: Refusal,
}
