//! What a pass knows, and the rule over all views.
use atomic_table::{Join, Play, Seat, Shared, Split, TableRule};
use blockdev::{Finished, Job};
use std::collections::LinkedList;
use std::marker::{Brand, PhantomData};

/// What the device has of a block: its bytes, and how many calls of it were made since the deeds were opened.
pub struct Block {
    pub bytes: LinkedList<u8>,
    pub calls: u64,
}

/// What a deed was given for: the task, and what the device had of its block then.
pub struct Given {
    pub task: Job,
    pub before: Block,
}

/// What came of the device call: the finished task, and what it left of the block.
pub struct Done {
    pub finished: Finished,
    pub left: Block,
}

/// A deed that is out: what it was given for, and what came of it once the call was made.
pub struct Deed {
    pub given: Given,
    pub done: Option<Done>,
}

/// Where the deed of a block is: at home, and then with what the device has of the block, or out.
pub enum Place {
    Home(Block),
    Out(Given),
}

/// What a pass knows. Each part is there only where the pass has it. No value of it is made.
pub struct View {
    /// The device's side: whether the device tells its contents, and what it has of each block. Of a device that does not tell, the bytes mean
    /// nothing.
    pub device: Option<(bool, LinkedList<Block>)>,
    /// The state's side: whether the device tells its contents, and where the deed of each block is.
    pub desk: Option<(bool, LinkedList<Place>)>,
    pub deed: Option<Deed>,
}

pub struct InOneHand;

impl TableRule<u8, View, ()> for InOneHand {
    ghost use Rattle.deeds.specs.Rules.{IsKept};
    ghost use Rattle.deeds.specs.Views.{opening_view};

    ghost holds = { λ _. IsKept };

    ghost first = { λ _. opening_view };
}

/// Names a device as it is found. Each call that opens deeds picks it.
pub trait NamesDevice {
    ghost use Rattle.std.specs.Prelude.{Bool, List};
    ghost use Rattle.deeds.specs.declared.views.Block.{Block};

    ghost told: { Bool };

    ghost blocks: { List Block };
}

impl NamesDevice for Brand {
    ghost use Rattle.std.specs.Prelude.{false, []};

    ghost told = { false };

    ghost blocks = { [] };
}

/// Names what a deed is given for. Each call that gives one picks it.
pub trait NamesGiven {
    ghost use Rattle.deeds.specs.declared.views.Given.{Given};

    ghost given: { Given };
}

impl NamesGiven for Brand {
    ghost use Rattle.deeds.specs.Views.{no_given};

    ghost given = { no_given };
}

/// Names what came of a device call. Each call that carries a deed out picks it.
pub trait NamesDone {
    ghost use Rattle.deeds.specs.declared.views.Done.{Done};

    ghost done: { Done };
}

impl NamesDone for Brand {
    ghost use Rattle.deeds.specs.Views.{no_done};

    ghost done = { no_done };
}

/// The first pass learns the device, and all deeds are at home.
pub struct Opens<N: NamesDevice> {
    of: PhantomData<N>,
}

impl<N: NamesDevice> Play<u8, View> for Opens<N> {
    ghost use Rattle.deeds.specs.Rules.{Opened};

    ghost then = { λ s before found after. Opened N.told N.blocks before after };
}

/// The desk gives a deed, and has it in the same pass still.
pub struct Gives<N: NamesGiven> {
    of: PhantomData<N>,
}

impl<N: NamesGiven> Play<u8, View> for Gives<N> {
    ghost use Rattle.deeds.specs.Rules.{GivenOut};

    ghost then = { λ s before found after. GivenOut N.given before after };
}

/// The device's side carries out the deed that it has beside it.
pub struct Carries<N: NamesDone> {
    of: PhantomData<N>,
}

impl<N: NamesDone> Play<u8, View> for Carries<N> {
    ghost use Rattle.deeds.specs.Rules.{Carried};

    ghost then = { λ s before found after. Carried N.done before after };
}

/// The desk takes back the deed that it has beside it.
pub struct TakesBack;

impl Play<u8, View> for TakesBack {
    ghost use Rattle.deeds.specs.Rules.{TakenBack};

    ghost then = { λ s before found after. TakenBack before after };
}

/// The desk compares itself with the device's side that it has beside it.
pub struct Compares;

impl Play<u8, View> for Compares {
    ghost use Rattle.deeds.specs.Rules.{Compared};

    ghost then = { λ s before found after. Compared before after };
}

/// The device's side goes into a pass of its own.
pub struct PartsDevice;

impl Split<View> for PartsDevice {
    ghost use Rattle.deeds.specs.Views.{without_device, device_alone};

    ghost left = { without_device };

    ghost right = { device_alone };
}

/// The deed goes into a pass of its own.
pub struct PartsDeed;

impl Split<View> for PartsDeed {
    ghost use Rattle.deeds.specs.Views.{without_deed, deed_alone};

    ghost left = { without_deed };

    ghost right = { deed_alone };
}

/// A pass takes in what another has.
pub struct TakesIn;

impl Join<View> for TakesIn {
    ghost use Rattle.deeds.specs.Views.{together, spent};

    ghost both = { together };

    ghost spent = { spent };
}

/// The table as threads share it. Its word never changes.
pub type Deeds = Shared<u8, View, (), InOneHand>;

/// A pass of the table.
pub type Pass = Seat<u8, View>;
