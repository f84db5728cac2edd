ghost use Rattle.std.specs.Prelude.{◌≡◌, ◌++◌, ◌≤◌, codes, OnOk, OnErr};
ghost use Rattle.std.specs.List.{flat_map, range_with_len};
ghost use Rattle.mqb_transcript.specs.Printing.{wrote};
ghost use Rattle.mqb_transcript.specs.Generator.{order_text, order_of, block_count, commit_text};
ghost use Rattle.mqb_transcript.specs.Generator.{connect_text, broken_text, flow_text, flows_text};
ghost use Rattle.mqb_transcript.specs.Generator.{breaks_text, block_text, generated};

use crate::printer::Printer;
use mqb_base::Memory;
use std::alloc::Global;

const HEAD: &[u8] = b"queue alpha replies plain 100000 none
queue beta orders tx 100000 none
connect alpha 1000 64 64
";

/// A send up to the number of its order.
const ORDER: &[u8] =
    b" send,DIRECT=OS:beta\\PRIVATE$\\orders,345600,-,pn,DIRECT=OS:alpha\\PRIVATE$\\replies,DIRECT=OS:alpha\\PRIVATE$\\replies,order-";

fn block_count(n: u32) -> u32
    requires { n ≤ 10000 }
    ensures { result ≡ block_count n }
{
    n.div_ceil(4)
}

impl<'h> Printer<'h> {
    #[tactic(auto, using(crate::specs::lemmas::Wrote::writing), unfolding(crate::specs::Generator::order_text))]
    fn order(&mut self, order: u32) -> Result<(), Memory>
        ensures { OnOk result (self.new ≡ wrote self.old (order_text order)) }
    {
        self.put(ORDER)?;
        self.number(order)
    }

    /// An order, where it is one of the `n` orders.
    #[tactic(auto, using(crate::specs::lemmas::Wrote::writing), unfolding(crate::specs::Generator::order_of))]
    fn order_of(&mut self, n: u32, order: u32) -> Result<(), Memory>
        ensures { OnOk result (self.new ≡ wrote self.old (order_of n order)) }
    {
        if order > n {
            return Ok(());
        }
        self.order(order)
    }

    #[tactic(auto, using(crate::specs::lemmas::Wrote::writing))]
    fn orders(&mut self, n: u32, first: u32) -> Result<(), Memory>
        requires { first ≤ 10000 }
        ensures { OnOk result (self.new ≡ wrote self.old (flat_map (order_of n)
            (range_with_len first 4))) }
    {
        for place in 0..4 {
            self.order_of(n, first + place)?;
        }
        Ok(())
    }

    #[tactic(auto, using(crate::specs::lemmas::Wrote::writing), unfolding(crate::specs::Generator::commit_text))]
    fn commit(&mut self, n: u32, block: u32) -> Result<(), Memory>
        requires least { 1 ≤ block }
        requires most { block ≤ 2500 }
        ensures { OnOk result (self.new ≡ wrote self.old (commit_text n block)) }
    {
        self.put(b"commit alpha ")?;
        self.number(1000 + block)?;
        self.orders(n, 4 * block - 3)?;
        self.put(b"\n")
    }

    #[tactic(auto, using(crate::specs::lemmas::Wrote::writing), unfolding(crate::specs::Generator::connect_text))]
    fn connect(&mut self, moment: u32) -> Result<(), Memory>
        ensures { OnOk result (self.new ≡ wrote self.old (connect_text moment)) }
    {
        self.put(b"connect alpha ")?;
        self.number(moment)?;
        self.put(b" 64 64\n")
    }

    /// A line that ends the connection and a new connection, where it is said.
    #[tactic(auto, using(crate::specs::lemmas::Wrote::writing), unfolding(crate::specs::Generator::broken_text))]
    fn broken(&mut self, here: bool, line: &[u8], moment: u32) -> Result<(), Memory>
        ensures { OnOk result (self.new ≡ wrote self.old (broken_text here line.now moment)) }
    {
        if !here {
            return Ok(());
        }
        self.put(line)?;
        self.put(b"\n")?;
        self.connect(moment)
    }

    #[tactic(auto, using(crate::specs::lemmas::Wrote::writing), unfolding(crate::specs::Generator::flow_text))]
    fn flow(&mut self, host: &[u8], moment: u32) -> Result<(), Memory>
        ensures { OnOk result (self.new ≡ wrote self.old (flow_text host.now moment)) }
    {
        self.put(b"flow ")?;
        self.put(host)?;
        self.put(b" ")?;
        self.number(moment)?;
        self.put(b"\n")
    }

    #[tactic(auto, using(crate::specs::lemmas::Wrote::writing), unfolding(crate::specs::Generator::flows_text))]
    fn flows(&mut self, moment: u32) -> Result<(), Memory>
        ensures { OnOk result (self.new ≡ wrote self.old (flows_text moment)) }
    {
        self.flow(b"alpha", moment)?;
        self.flow(b"beta", moment)?;
        self.flow(b"alpha", moment)
    }

    #[tactic(auto, using(crate::specs::lemmas::Wrote::writing), unfolding(crate::specs::Generator::breaks_text))]
    fn breaks(&mut self, count: u32, block: u32) -> Result<(), Memory>
        requires count { count ≤ 2500 }
        requires block { block ≤ 2500 }
        ensures { OnOk result (self.new ≡ wrote self.old (breaks_text count block)) }
    {
        let moment = 1000 + block;
        self.broken(block == count / 4 + 1, b"disconnect", moment)?;
        self.broken(block == count / 2 + 1, b"restart alpha old", moment)?;
        self.broken(block == 3 * count / 4 + 1, b"restart beta old", moment)?;
        self.broken(block == count, b"disconnect", moment)
    }

    #[tactic(auto, using(crate::specs::lemmas::Wrote::writing), unfolding(crate::specs::Generator::block_text))]
    fn block(&mut self, n: u32, block: u32) -> Result<(), Memory>
        requires orders { n ≤ 10000 }
        requires least { 1 ≤ block }
        requires most { block ≤ 2500 }
        ensures { OnOk result (self.new ≡ wrote self.old (block_text n block)) }
    {
        self.commit(n, block)?;
        self.breaks(block_count(n), block)?;
        self.flows(1000 + block)
    }

    #[tactic(auto, using(crate::specs::lemmas::Wrote::writing))]
    fn blocks(&mut self, n: u32) -> Result<(), Memory>
        requires { n ≤ 10000 }
        ensures { OnOk result (self.new ≡ wrote self.old (flat_map (block_text n)
            (range_with_len 1 (block_count n)))) }
    {
        for index in 0..block_count(n) {
            self.block(n, 1 + index)?;
        }
        Ok(())
    }

    #[tactic(auto, using(crate::specs::lemmas::Wrote::writing), unfolding(crate::specs::Generator::generated))]
    fn script(&mut self, n: u32) -> Result<(), Memory>
        requires { n ≤ 10000 }
        ensures { OnOk result (self.new ≡ wrote self.old (generated n)) }
    {
        self.put(HEAD)?;
        self.blocks(n)
    }
}

/// Appends the script of `n` orders that alpha sends to beta, four in a transaction, with two
/// disconnections and a restart of each manager. After a refusal `out` is as before.
#[tactic(auto, using(crate::specs::lemmas::Wrote::text_wrote))]
pub fn make_script(alloc: Global, n: u32, out: &mut Vec<u8>) -> Result<(), Memory>
    requires least { 1 ≤ n }
    requires most { n ≤ 10000 }
    ensures ok { OnOk result (out.new.items ≡ out.old.items ++ generated n) }
    ensures err { OnErr result (out.new.items ≡ out.old.items) }
{
    let mut printer = Printer::new(alloc, &[]);
    printer.script(n)?;
    out.extend_from_slice(printer.text())?;
    Ok(())
}
