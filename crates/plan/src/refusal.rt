// The refusals: what a check finds, and the number by which callers are told.
ghost use Rattle.std.specs.Prelude.{◌≡◌};
ghost use Rattle.plan.specs.Refusals.{number_of};

// Why a call is refused. Each has the number that documents 01 and 02 give it.
#[derive(Clone, Copy, Debug, PartialEq, Eq)]
pub enum Refusal {
    // the number of nodes is not 1 to 4,096
    NodeCount = 1,
    // the starts of a mesh are not n + 1, do not begin at 0, fall, or do not end at the number of entries
    Starts = 2,
    // more than 65,536 neighbour entries
    EntryCount = 3,
    // a neighbour is not below the number of nodes
    NeighbourOutside = 4,
    // a node lists itself
    ListsItself = 5,
    // a node's neighbours are not strictly ascending
    NotAscending = 6,
    // an edge is listed by one of its two nodes only
    OneSided = 7,
    // a lent result other than the rows is too short
    BuffersTooShort = 8,
    // the rows buffer is shorter than the slots
    RowsTooShort = 9,
    // a file has too few bytes for its version
    TooFewBytes = 10,
    // a file does not begin with the letters NDP
    Magic = 11,
    // a file's version is neither 1 nor 2
    Version = 12,
    // the counts of a plan are out of their limits, or a list to be written is too short for them
    Header = 13,
    // a file's length is not that of its counts
    FileLength = 14,
    // the order does not hold each node once
    Order = 15,
    // sizes and parents are not those of a tree of parts
    Parts = 16,
    // the row counts do not fit the slots, or a column's rows are not ascending between it and n
    Rows = 17,
    // a row lies outside its column's part and the ancestors of that part
    RowOutside = 18,
    // a column's rows behind its first are not all rows of the first row's column
    NotCovered = 19,
    // the input of the listing program is cut short or over its size
    Input = 20,
    // a position is not below the number of nodes
    PositionOutside = 21,
    // the column starts do not fit the nodes and the rows, or a column's rows break the rule of 17
    Layout = 22,
    // a text is not of the kind that is read
    Text = 23,
    // a text's matrix is not square, or an index or a row number is outside it
    Matrix = 24,
    // a text gives a pair again
    RepeatedPair = 25,
    // a node has more than 26 neighbours
    TooManyNeighbours = 26,
    // a slot is not below the number of slots
    SlotOutside = 27,
    // the number of unknowns for each node is not 1 to 6
    Unknowns = 28,
    // more than one unknown for each node
    ManyUnknowns = 29,
    // a buffer of values has another length than needed
    ValueCount = 30,
    // a pivot is not both finite and above zero
    Pivot = 31,
    // two lists of paired nodes are not as long as one another, or name a node that is none
    Pairing = 32,
    // a node is paired twice
    PairedTwice = 33,
}

impl Refusal {
    // Its number. O(1).
    pub fn number(self) -> u32
        ensures { result ≡ number_of self }
    {
        self as u32
    }
}
