// A plain model of a store: what stands at each place of each point, and how many places are free there. Its limit and its
// numbers are its own.
use store::{Reading, StoreFault};

// The most energy of a reading.
const MOST_ENERGY: u16 = 5000;

// The number by which a refusal is told, 0 for a call that was done.
pub fn told(answer: Result<(), StoreFault>) -> u8 {
    match answer {
        Ok(()) => 0,
        Err(StoreFault::Beyond) => 1,
        Err(StoreFault::TooLarge) => 2,
        Err(StoreFault::Full) => 3,
        Err(StoreFault::Nothing) => 4,
    }
}

// Which answers came.
#[derive(Clone, Copy, PartialEq, Eq, Debug, Default)]
pub struct Seen {
    pub done: bool,
    pub beyond: bool,
    pub too_large: bool,
    pub full: bool,
    pub nothing: bool,
}

impl Seen {
    fn note(&mut self, answer: Result<(), StoreFault>) {
        match answer {
            Ok(()) => self.done = true,
            Err(StoreFault::Beyond) => self.beyond = true,
            Err(StoreFault::TooLarge) => self.too_large = true,
            Err(StoreFault::Full) => self.full = true,
            Err(StoreFault::Nothing) => self.nothing = true,
        }
    }
}

#[derive(Clone, Copy)]
struct Point<const SPAN: usize> {
    free: usize,
    cells: [Option<Reading>; SPAN],
}

impl<const SPAN: usize> Point<SPAN> {
    fn enter(&mut self, place: usize, reading: Reading) -> Result<(), StoreFault> {
        let cell = self.cells.get_mut(place).ok_or(StoreFault::Beyond)?;
        if reading.energy > MOST_ENERGY {
            return Err(StoreFault::TooLarge);
        }
        if cell.is_none() {
            self.free = self.free.checked_sub(1).ok_or(StoreFault::Full)?;
        }
        *cell = Some(reading);
        Ok(())
    }

    fn void(&mut self, place: usize) -> Result<(), StoreFault> {
        let cell = self.cells.get_mut(place).ok_or(StoreFault::Beyond)?;
        cell.take().ok_or(StoreFault::Nothing)?;
        self.free = self.free.saturating_add(1);
        Ok(())
    }
}

#[derive(Clone, Copy)]
pub struct Model<const POINTS: usize, const SPAN: usize> {
    points: [Point<SPAN>; POINTS],
    entries: Seen,
    voidings: Seen,
}

impl<const POINTS: usize, const SPAN: usize> Model<POINTS, SPAN> {
    // The model with no reading, and so many places free at each point.
    pub fn new(free: [usize; POINTS]) -> Model<POINTS, SPAN> {
        let none = Point {
            free: 0,
            cells: [None; SPAN],
        };
        let mut points = [none; POINTS];
        for (point, free) in points.iter_mut().zip(free.iter()) {
            point.free = *free;
        }
        Model {
            points,
            entries: Seen::default(),
            voidings: Seen::default(),
        }
    }

    // The answers to entries.
    pub fn entries(&self) -> Seen {
        self.entries
    }

    // The answers to voidings.
    pub fn voidings(&self) -> Seen {
        self.voidings
    }

    pub fn free(&self, point: u32) -> usize {
        match self.points.get(point as usize) {
            Some(point) => point.free,
            None => 0,
        }
    }

    pub fn read(&self, point: u32, place: u32) -> Option<Reading> {
        *self.points.get(point as usize)?.cells.get(place as usize)?
    }

    pub fn enter(&mut self, point: u32, place: u32, reading: Reading) -> Result<(), StoreFault> {
        let answer = match self.points.get_mut(point as usize) {
            Some(point) => point.enter(place as usize, reading),
            None => Err(StoreFault::Beyond),
        };
        self.entries.note(answer);
        answer
    }

    pub fn void(&mut self, point: u32, place: u32) -> Result<(), StoreFault> {
        let answer = match self.points.get_mut(point as usize) {
            Some(point) => point.void(place as usize),
            None => Err(StoreFault::Beyond),
        };
        self.voidings.note(answer);
        answer
    }
}
