// The columns and numbers of the state by the words that a script has for them.
use crate::short::Pool;

// The numbers of the whole, as they stand in front of the books.
#[derive(Clone, Copy)]
pub enum WholeNumber {
    Nodes,
    Used,
    Stores,
    Next,
    Stalls,
}

// The numbers of a store, behind the five of the whole.
#[derive(Clone, Copy)]
pub enum StoreNumber {
    Capacity,
    Policy,
    Records,
    Held,
    LastStamp,
    Version,
    Entries,
    Pinned,
}

#[derive(Clone, Copy)]
pub enum Name {
    Column(Pool),
    Whole(WholeNumber),
    Store(StoreNumber),
}

impl Name {
    pub fn read(word: &[u8]) -> Option<Name> {
        let name = match word {
            b"parent" => Name::Column(Pool::Parent),
            b"depth" => Name::Column(Pool::Depth),
            b"len" => Name::Column(Pool::Len),
            b"run" => Name::Column(Pool::Run),
            b"words" => Name::Column(Pool::Words),
            b"node" => Name::Column(Pool::Node),
            b"start" => Name::Column(Pool::Start),
            b"end" => Name::Column(Pool::End),
            b"id" => Name::Column(Pool::Id),
            b"stamp" => Name::Column(Pool::Stamp),
            b"touched" => Name::Column(Pool::Touched),
            b"write" => Name::Column(Pool::Write),
            b"pin_node" => Name::Column(Pool::PinNode),
            b"pin_start" => Name::Column(Pool::PinStart),
            b"pin_end" => Name::Column(Pool::PinEnd),
            b"pin_count" => Name::Column(Pool::PinCount),
            b"marks" => Name::Column(Pool::Marks),
            b"bytes" => Name::Column(Pool::Bytes),
            b"books" => Name::Column(Pool::Books),
            b"nodes" => Name::Whole(WholeNumber::Nodes),
            b"used" => Name::Whole(WholeNumber::Used),
            b"stores" => Name::Whole(WholeNumber::Stores),
            b"next" => Name::Whole(WholeNumber::Next),
            b"stalls" => Name::Whole(WholeNumber::Stalls),
            b"capacity" => Name::Store(StoreNumber::Capacity),
            b"policy" => Name::Store(StoreNumber::Policy),
            b"records" => Name::Store(StoreNumber::Records),
            b"held" => Name::Store(StoreNumber::Held),
            b"last_stamp" => Name::Store(StoreNumber::LastStamp),
            b"version" => Name::Store(StoreNumber::Version),
            b"entries" => Name::Store(StoreNumber::Entries),
            b"pinned" => Name::Store(StoreNumber::Pinned),
            _ => return None,
        };
        Some(name)
    }
}
