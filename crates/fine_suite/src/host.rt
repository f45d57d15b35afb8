// What the host holds: the near frame under way and the retained one, and, as records write them, the far window and the array of heights.
use crate::records::{Call, Kind};
use vectors::buffers::store;

// Long enough for the longest span.
#[derive(Drop)]
pub struct Host {
    pub near: [f32; 65536],
    pub retained: [f32; 65536],
    pub far: [f32; 65536],
    pub array: [f32; 65536],
}

impl Host {
    pub fn blank() -> Host {
        Host {
            near: [0.0; 65536],
            retained: [0.0; 65536],
            far: [0.0; 65536],
            array: [0.0; 65536],
        }
    }

    // A new stage finds the far window and the array all 0.
    fn clear(&mut self) {
        self.far.fill(0.0);
        self.array.fill(0.0);
    }

    pub fn write(&mut self, call: Call) {
        match call.kind {
            Kind::New => self.clear(),
            Kind::Far => call.signal.fill(&mut self.far, call.place),
            Kind::FarEntry => store(&mut self.far, call.count, call.number),
            Kind::Array => call.signal.fill(&mut self.array, call.place),
            Kind::ArrayEntry => store(&mut self.array, call.count, call.number),
            _ => {}
        }
    }
}
