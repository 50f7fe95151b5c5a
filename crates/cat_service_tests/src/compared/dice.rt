//! Lines as a die throws them, of the commands that both catalogues answer.
use cat_base::Token;
use cat_service::cat_protocol::Sort;
use cat_service::cat_protocol::lines::{Command, Facets, Find, Line};

const IDS: &[&str] = &["a", "b", "c", "d", "e", "f", "g", "h"];

/// How many texts there are of an item of each id.
const TEXTS: usize = 7;

/// The texts of items of each id, of which the last is refused.
const ITEMS: &[&[&str]] = &[
    &[
        r#"{"id":"a"}"#,
        r#"{"id":"a","price":7}"#,
        r#"{"id":"a","price":-3,"brand":"x"}"#,
        r#"{"id":"a","brand":"y","color":["red"]}"#,
        r#"{"id":"a","color":["blue","red"],"title":"Red shoe"}"#,
        r#"{"id":"a","title":"wool sock","price":7,"color":[]}"#,
        r#"{"id":"a","brand":7}"#,
    ],
    &[
        r#"{"id":"b"}"#,
        r#"{"id":"b","price":7}"#,
        r#"{"id":"b","price":-3,"brand":"x"}"#,
        r#"{"id":"b","brand":"y","color":["red"]}"#,
        r#"{"id":"b","color":["blue","red"],"title":"Red shoe"}"#,
        r#"{"id":"b","title":"wool sock","price":7,"color":[]}"#,
        r#"{"id":"b","brand":7}"#,
    ],
    &[
        r#"{"id":"c"}"#,
        r#"{"id":"c","price":7}"#,
        r#"{"id":"c","price":-3,"brand":"x"}"#,
        r#"{"id":"c","brand":"y","color":["red"]}"#,
        r#"{"id":"c","color":["blue","red"],"title":"Red shoe"}"#,
        r#"{"id":"c","title":"wool sock","price":7,"color":[]}"#,
        r#"{"id":"c","brand":7}"#,
    ],
    &[
        r#"{"id":"d"}"#,
        r#"{"id":"d","price":7}"#,
        r#"{"id":"d","price":-3,"brand":"x"}"#,
        r#"{"id":"d","brand":"y","color":["red"]}"#,
        r#"{"id":"d","color":["blue","red"],"title":"Red shoe"}"#,
        r#"{"id":"d","title":"wool sock","price":7,"color":[]}"#,
        r#"{"id":"d","brand":7}"#,
    ],
    &[
        r#"{"id":"e"}"#,
        r#"{"id":"e","price":7}"#,
        r#"{"id":"e","price":-3,"brand":"x"}"#,
        r#"{"id":"e","brand":"y","color":["red"]}"#,
        r#"{"id":"e","color":["blue","red"],"title":"Red shoe"}"#,
        r#"{"id":"e","title":"wool sock","price":7,"color":[]}"#,
        r#"{"id":"e","brand":7}"#,
    ],
    &[
        r#"{"id":"f"}"#,
        r#"{"id":"f","price":7}"#,
        r#"{"id":"f","price":-3,"brand":"x"}"#,
        r#"{"id":"f","brand":"y","color":["red"]}"#,
        r#"{"id":"f","color":["blue","red"],"title":"Red shoe"}"#,
        r#"{"id":"f","title":"wool sock","price":7,"color":[]}"#,
        r#"{"id":"f","brand":7}"#,
    ],
    &[
        r#"{"id":"g"}"#,
        r#"{"id":"g","price":7}"#,
        r#"{"id":"g","price":-3,"brand":"x"}"#,
        r#"{"id":"g","brand":"y","color":["red"]}"#,
        r#"{"id":"g","color":["blue","red"],"title":"Red shoe"}"#,
        r#"{"id":"g","title":"wool sock","price":7,"color":[]}"#,
        r#"{"id":"g","brand":7}"#,
    ],
    &[
        r#"{"id":"h"}"#,
        r#"{"id":"h","price":7}"#,
        r#"{"id":"h","price":-3,"brand":"x"}"#,
        r#"{"id":"h","brand":"y","color":["red"]}"#,
        r#"{"id":"h","color":["blue","red"],"title":"Red shoe"}"#,
        r#"{"id":"h","title":"wool sock","price":7,"color":[]}"#,
        r#"{"id":"h","brand":7}"#,
    ],
];

/// Queries, of which the last is none.
const QUERIES: &[&str] = &[
    "*:*",
    "color:red",
    "*:* -color:red",
    "price:[* TO 5] brand:y",
    "+title:sho* color:blue",
    "title:sock brand:[a TO x]",
    "(price:7 color:blue) -brand:x",
    "price:x",
];

/// Queries of what is deleted, of items that a further clause matches too.
const DELETED: &[&str] = &[
    "+color:red price:7 color:red",
    "+*:* -color:red price:7 color:red",
    "+price:[* TO 5] brand:y price:7 color:red",
];

const SORTS: &[Sort<'static>] = &[
    Sort::Added,
    Sort::Rising("price"),
    Sort::Falling("price"),
    Sort::Rising("brand"),
    Sort::Falling("brand"),
    Sort::Rising("title"),
];

/// Fields whose labels are counted, of which the last has none.
const DIMENSIONS: &[&str] = &["color", "color", "color", "brand"];

/// Numbers as a die throws them, the same in each run.
#[derive(Drop)]
pub(super) struct Dice {
    state: u64,
    /// The newest four tokens that were recorded, the newest first.
    tokens: [Token; 4],
}

impl Dice {
    pub(super) fn new(seed: u64) -> Dice {
        Dice {
            state: seed,
            tokens: [0; 4],
        }
    }

    /// Takes a token that was recorded.
    pub(super) fn take(&mut self, token: Token) {
        let [newest, second, third, _] = self.tokens;
        self.tokens = [token, newest, second, third];
    }

    fn throw(&mut self, sides: u64) -> u64 {
        self.state = self
            .state
            .wrapping_mul(6_364_136_223_846_793_005)
            .wrapping_add(1_442_695_040_888_963_407);
        (self.state >> 33) % sides.max(1)
    }

    /// One of these.
    fn pick<T: Copy>(&mut self, from: &[T], where_none: T) -> T {
        let place = self.throw(from.len() as u64) as usize;
        at(from, place, where_none)
    }

    /// One of the newest four tokens.
    fn token(&mut self) -> Token {
        let tokens = self.tokens;
        self.pick(&tokens, 0)
    }

    /// A FIND, whose mark is none, or the number of a write not long before the token.
    fn find(&mut self) -> Find<'static> {
        let token = self.token();
        let count = self.throw(5);
        let sort = self.pick(SORTS, Sort::Added);
        let query = self.pick(QUERIES, "");
        let mark = match self.throw(3) {
            0 => Some(token.saturating_sub(self.throw(12))),
            _ => None,
        };
        Find {
            token,
            count,
            sort,
            mark,
            query,
        }
    }

    fn facets(&mut self) -> Facets<'static> {
        let token = self.token();
        let dimension = self.pick(DIMENSIONS, "");
        let count = self.throw(4);
        let query = self.pick(QUERIES, "");
        Facets {
            token,
            dimension,
            count,
            query,
        }
    }

    fn write(&mut self) -> Command<'static> {
        let id = self.throw(IDS.len() as u64) as usize;
        let text = self.throw(TEXTS as u64) as usize;
        match self.throw(8) {
            0 => Command::Delete(at(IDS, id, "")),
            1 => Command::DeleteWhere(self.pick(DELETED, "")),
            _ => Command::Put(at(at(ITEMS, id, &[]), text, "")),
        }
    }

    fn hold(&mut self) -> Command<'static> {
        let token = self.token();
        match self.throw(6) {
            0 => Command::Open(Some(token)),
            1 => Command::Close(token),
            2 => Command::Prune(self.throw(4)),
            3 => Command::Open(None),
            _ => Command::Refresh,
        }
    }

    /// A line of a command that both answer.
    pub(super) fn line(&mut self) -> Line<'static> {
        let session = match self.throw(3) {
            0 => 1,
            1 => 2,
            _ => 3,
        };
        let command = match self.throw(9) {
            0..=2 => self.write(),
            3 | 4 => self.hold(),
            5 | 6 => Command::Find(self.find()),
            7 => Command::Facets(self.facets()),
            _ => Command::Get {
                token: self.token(),
                id: self.pick(IDS, ""),
            },
        };
        Line { session, command }
    }
}

/// The one at this place.
fn at<T: Copy>(from: &[T], place: usize, where_none: T) -> T {
    from.get(place).copied().unwrap_or(where_none)
}
