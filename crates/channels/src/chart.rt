// The channels' edges as the printed chart has them; docs/CHART.md shows these numbers.
// The contract cites specs/Chart.antt.
ghost use Rattle.channels.specs.Chart.{Chart};

// The lower edges in kHz of channels 21 to 48, in order.
const LOWER_EDGES: [u32; 28] = [
    470000, // 21
    478000, // 22
    486000, // 23
    494000, // 24
    502000, // 25
    510000, // 26
    518000, // 27
    526000, // 28
    534000, // 29
    542000, // 30
    550000, // 31
    558000, // 32
    566000, // 33
    574000, // 34
    582000, // 35
    590000, // 36
    598000, // 37
    606000, // 38
    614000, // 39
    622000, // 40
    630000, // 41
    638000, // 42
    646000, // 43
    654000, // 44
    662000, // 45
    670000, // 46
    678000, // 47
    686000, // 48
];

// The whole table: its promise is of all entries together.
pub fn lower_edges() -> [u32; 28]
    ensures { Chart result }
{
    LOWER_EDGES
}
