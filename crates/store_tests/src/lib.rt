// Tests of every make of store: one long sequence of drawn calls is given to each, and to a plain model of it.
// `model` has the model, `drive` the sequence; this file has a test for each make.
#![tactic(auto)]

#[cfg(test)]
mod drive;
#[cfg(test)]
mod model;

#[cfg(test)]
mod tests {
    use crate::drive::drive;
    use crate::model::{Model, Seen};
    use sparse::{PlacedReading, Sparse};
    use store::{Clock, Lent, Pair, Store};
    use table::Table;

    const STEPS: u32 = 4000;

    // All that an entry can be answered, and all that a voiding can be.
    const ENTRIES: Seen = Seen {
        done: true,
        beyond: true,
        too_large: true,
        full: true,
        nothing: false,
    };

    const VOIDINGS: Seen = Seen {
        done: true,
        beyond: true,
        too_large: false,
        full: false,
        nothing: true,
    };

    #[test]
    fn table_agrees(rt: HostRuntime) {
        let mut readings = [0u16; 16];
        let mut present = [0u8; 2];
        let mut table = Table::new(&mut readings, &mut present, 2, 8);
        let mut model = Model::<2, 8>::new([8, 8]);
        assert_eq!(rt; drive(&rt, &mut table, &mut model, STEPS), STEPS);
        // a table has a place free wherever no reading stands
        assert_eq!(rt;
            model.entries(),
            Seen {
                full: false,
                ..ENTRIES
            }
        );
        assert_eq!(rt; model.voidings(), VOIDINGS);
    }

    #[test]
    fn sparse_agrees(rt: HostRuntime) {
        let mut slots = [PlacedReading::default(); 3];
        let mut sparse = Sparse::new(8, &mut slots);
        let mut model = Model::<1, 8>::new([3]);
        assert_eq!(rt; drive(&rt, &mut sparse, &mut model, STEPS), STEPS);
        assert_eq!(rt; model.entries(), ENTRIES);
        assert_eq!(rt; model.voidings(), VOIDINGS);
    }

    #[test]
    fn pair_agrees(rt: HostRuntime) {
        let mut readings = [0u16; 16];
        let mut present = [0u8; 2];
        let mut slots = [PlacedReading::default(); 3];
        let table = Table::new(&mut readings, &mut present, 2, 8);
        let sparse = Sparse::new(9, &mut slots);
        let mut pair = Pair::new(table, sparse);
        let mut model = Model::<3, 8>::new([8, 8, 3]);
        assert_eq!(rt; drive(&rt, &mut pair, &mut model, STEPS), STEPS);
        assert_eq!(rt; model.entries(), ENTRIES);
        assert_eq!(rt; model.voidings(), VOIDINGS);
    }

    #[test]
    fn clock_agrees(rt: HostRuntime) {
        let mut readings = [0u16; 16];
        let mut present = [0u8; 2];
        let mut slots = [PlacedReading::default(); 3];
        let mut table = Table::new(&mut readings, &mut present, 2, 8);
        let mut sparse = Sparse::new(9, &mut slots);
        let pair = Pair::new(Lent::new(&mut table), Lent::new(&mut sparse));
        let mut clock = Clock::new(pair, 2);
        let mut model = Model::<3, 6>::new([8, 8, 3]);
        assert_eq!(rt; drive(&rt, &mut clock, &mut model, STEPS), STEPS);
        assert_eq!(rt; model.entries(), ENTRIES);
        assert_eq!(rt; model.voidings(), VOIDINGS);
    }
}
