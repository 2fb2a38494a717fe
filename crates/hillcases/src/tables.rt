// The edits that are tried.
use course::Gate;
use hills::Edit;

// Edits of hill H.
pub static OF_H: [Edit; 24] = [
    Edit::Add(Gate {
        number: 9,
        distance: 1_048_576,
        height: -300,
    }),
    Edit::Add(Gate {
        number: 9,
        distance: 1_048_575,
        height: -300,
    }),
    Edit::Add(Gate {
        number: 9,
        distance: 2000,
        height: -524_289,
    }),
    Edit::Add(Gate {
        number: 9,
        distance: 2000,
        height: -524_288,
    }),
    Edit::Add(Gate {
        number: 2,
        distance: 2000,
        height: -300,
    }),
    Edit::Add(Gate {
        number: 9,
        distance: 300,
        height: 400,
    }),
    Edit::Add(Gate {
        number: 9,
        distance: 400,
        height: 400,
    }),
    Edit::Add(Gate {
        number: 9,
        distance: 0,
        height: 900,
    }),
    Edit::Add(Gate {
        number: 9,
        distance: 1000,
        height: -300,
    }),
    Edit::Remove(9),
    Edit::Remove(2),
    Edit::Remove(1),
    Edit::Remove(4),
    Edit::Relocate(Gate {
        number: 9,
        distance: 400,
        height: 400,
    }),
    Edit::Relocate(Gate {
        number: 2,
        distance: 300,
        height: 400,
    }),
    Edit::Relocate(Gate {
        number: 2,
        distance: 300,
        height: 500,
    }),
    Edit::Relocate(Gate {
        number: 2,
        distance: 2000,
        height: -300,
    }),
    Edit::Relocate(Gate {
        number: 2,
        distance: 0,
        height: 400,
    }),
    Edit::Relocate(Gate {
        number: 3,
        distance: 300,
        height: 400,
    }),
    Edit::Relocate(Gate {
        number: 2,
        distance: 1_048_576,
        height: 0,
    }),
    Edit::Add(Gate {
        number: 1,
        distance: 1_048_576,
        height: 0,
    }),
    Edit::Add(Gate {
        number: 1,
        distance: 300,
        height: 400,
    }),
    Edit::Relocate(Gate {
        number: 9,
        distance: 1_048_576,
        height: 0,
    }),
    Edit::Relocate(Gate {
        number: 9,
        distance: 300,
        height: 400,
    }),
];

// Edits of a course with no gates.
pub static OF_NO_GATES: [Edit; 6] = [
    Edit::Add(Gate {
        number: 1,
        distance: 0,
        height: 524_287,
    }),
    Edit::Add(Gate {
        number: 1,
        distance: 0,
        height: 524_288,
    }),
    Edit::Add(Gate {
        number: 0,
        distance: 1_048_575,
        height: -524_288,
    }),
    Edit::Add(Gate {
        number: 255,
        distance: 0,
        height: 0,
    }),
    Edit::Remove(1),
    Edit::Relocate(Gate {
        number: 1,
        distance: 0,
        height: 0,
    }),
];

// Edits of a course with 200 gates.
pub static OF_200_GATES: [Edit; 9] = [
    Edit::Add(Gate {
        number: 200,
        distance: 200,
        height: -200,
    }),
    Edit::Add(Gate {
        number: 199,
        distance: 200,
        height: -200,
    }),
    Edit::Add(Gate {
        number: 200,
        distance: 0,
        height: 0,
    }),
    Edit::Add(Gate {
        number: 200,
        distance: 1_048_576,
        height: 0,
    }),
    Edit::Remove(0),
    Edit::Remove(199),
    Edit::Relocate(Gate {
        number: 0,
        distance: 200,
        height: -200,
    }),
    Edit::Relocate(Gate {
        number: 100,
        distance: 98,
        height: -100,
    }),
    Edit::Relocate(Gate {
        number: 100,
        distance: 99,
        height: -101,
    }),
];
