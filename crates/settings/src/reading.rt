// What a setting tells of itself.
ghost use Rattle.std.specs.Prelude.{◌≡◌, length, slice_get};
ghost use Rattle.settings.specs.Contents.{content};

use crate::setting::Setting;

impl Setting {
    // The number of blocks.
    pub fn blocks(&self) -> u8
        ensures { result ≡ (content self.now).blocks }
    {
        self.blocks
    }

    // How many blocks the cache holds.
    pub fn size(&self) -> u8
        ensures { result ≡ (content self.now).size }
    {
        self.size
    }

    // The initial cache, as a map.
    pub fn initial(&self) -> u64
        ensures { result ≡ (content self.now).initial }
    {
        self.initial
    }

    // The number of requests.
    pub fn len(&self) -> u8
        ensures { result ≡ length (content self.now).requests }
    {
        self.requests.len() as u8
    }

    // The block that is asked for once `cursor` requests are served, unless none is left.
    pub fn asked(&self, cursor: u8) -> Option<u8>
        ensures { result ≡ slice_get (content self.now).requests cursor }
    {
        self.requests.get(cursor as usize).copied()
    }
}
