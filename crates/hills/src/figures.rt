// Figures of hill H.

// What spans of hill H cost, and a group of two of its gates. With a gate mast's cost stands the position of its gate.
// `trench_of_one` is the greatest of the trenches of one gate.
#[derive(Clone, Copy, Debug, PartialEq)]
pub struct Figures {
    pub gate_mast_1_to_3: (u64, usize),
    pub gate_mast_1_to_4: (u64, usize),
    pub gate_mast_1_and_3: u64,
    pub free_mast_1_to_3: u64,
    pub free_mast_2_to_4: u64,
    pub free_mast_1_to_4: u64,
    pub trench_1_to_4: u64,
    pub trench_of_one: u64,
}
