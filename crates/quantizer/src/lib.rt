// The stages of training, one boundary each: what they do to a palette and to the hints stands in specs/, one file a stage.
// The functions stand in the crates above, one a stage. Here is only what they share.
#![tactic(auto)]

use job::Job;

// A course of training as it is lent: a job, and two numbers a sample, a tile and a colour's place in it.
#[derive(Clone, Copy)]
pub struct Course<'a> {
    pub job: Job<'a>,
    pub samples: &'a [u32],
}

// The place to copy, and the place that gives way to the copy.
#[derive(Clone, Copy)]
pub struct Swap {
    pub from: usize,
    pub to: usize,
}

// What a pass of refinement takes its means from: for each colour's place a sum, three numbers, and how many pixels went into it.
#[derive(Drop)]
pub struct Gather {
    pub sums: [f32; 768],
    pub cnts: [u32; 256],
}

// What each of N places has, and what would be added without it.
#[derive(Drop)]
pub struct Shares<const N: usize> {
    pub had: [f32; N],
    pub lost: [f32; N],
}
