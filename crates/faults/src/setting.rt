// Why a setting is not filled.

// A figure of a setting, with its number.
#[derive(Clone, Copy, PartialEq, Eq, Debug)]
pub enum Figure {
    // the number of blocks, 1 to 64
    Blocks = 1,
    // the cache's size, 1 to the number of blocks
    Size = 2,
    // the number of requests, at most 200
    Requests = 3,
}

#[derive(Clone, Copy, PartialEq, Eq, Debug)]
pub enum SettingFault {
    // a figure is out of limits
    Figure(Figure),
    // the initial map is not as many blocks as the cache holds, all of them known; it has so many ones
    Initial { ones: u8 },
    // this request, the first being 1, names no known block
    Request { number: u8 },
}
