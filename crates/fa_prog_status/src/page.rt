//! The page that shows how a running array is. It asks its own server for `/status.json` each second, and has no outside parts.

/// The page.
pub const PAGE: &str = r##"<!doctype html>
<html lang="en">
<head>
<meta charset="utf-8">
<meta name="viewport" content="width=device-width, initial-scale=1">
<title>flasharr</title>
<link rel="icon" href="data:,">
<style>
:root { color-scheme: light dark; --ground: #f6f7f9; --card: #fff; --ink: #1c2330; --quiet: #5c6675; --line: #d9dee6;
  --erased: #dfe4ea; --current: #2f6fde; --stale: #e0a030; --bad: #c62f2f; --good: #2c8a4b; --write: #c2571a; }
@media (prefers-color-scheme: dark) { :root { --ground: #12161d; --card: #1b212b; --ink: #e6eaf0; --quiet: #98a3b3; --line: #323b49;
  --erased: #39434f; --current: #5b93f5; --stale: #d9a441; --bad: #f06a6a; --good: #57bd7b; --write: #f0935a; } }
* { box-sizing: border-box; }
body { margin: 0; padding: 16px; background: var(--ground); color: var(--ink); font: 15px/1.45 system-ui, sans-serif; }
main { max-width: 1320px; margin: 0 auto; display: grid; gap: 16px; grid-template-columns: minmax(0, 1fr); }
h1 { font-size: 20px; margin: 0; }
h2 { font-size: 15px; margin: 0 0 10px; }
header { display: flex; flex-wrap: wrap; gap: 4px 16px; align-items: baseline; }
section { background: var(--card); border: 1px solid var(--line); border-radius: 8px; padding: 14px; min-width: 0; }
.quiet { color: var(--quiet); }
.bad { color: var(--bad); font-weight: 600; }
.good { color: var(--good); font-weight: 600; }
.facts { display: flex; flex-wrap: wrap; gap: 6px 24px; margin: 0; }
.facts div { min-width: 84px; }
.facts dt { color: var(--quiet); font-size: 13px; }
.facts dd { margin: 0; font-size: 18px; font-variant-numeric: tabular-nums; }
#dies { display: grid; gap: 10px; grid-template-columns: repeat(auto-fill, minmax(150px, 1fr)); }
.die { border: 1px solid var(--line); border-radius: 6px; padding: 8px 10px; min-width: 0; }
.die.out, .die.missing { border-color: var(--bad); }
.die .top { display: flex; justify-content: space-between; gap: 8px; }
.die .quiet { font-size: 13px; }
.die .path { color: var(--quiet); font-size: 12px; overflow: hidden; text-overflow: ellipsis; white-space: nowrap; }
.bar { display: flex; height: 14px; border-radius: 4px; overflow: hidden; background: var(--erased); margin: 6px 0 4px; }
.bar i { display: block; height: 100%; }
.current { background: var(--current); } .stale { background: var(--stale); } .erased { background: var(--erased); }
.legend { display: flex; flex-wrap: wrap; gap: 4px 16px; font-size: 13px; color: var(--quiet); margin-top: 8px; }
.legend b { display: inline-block; width: 10px; height: 10px; border-radius: 2px; margin-right: 6px; }
.two { display: grid; gap: 16px; grid-template-columns: minmax(0, 1fr); }
@media (min-width: 900px) { .two { grid-template-columns: minmax(0, 3fr) minmax(0, 2fr); } }
svg { width: 100%; height: 180px; display: block; }
svg text { fill: var(--quiet); font-size: 11px; }
ul { margin: 0; padding-left: 18px; } li { margin: 3px 0; overflow-wrap: anywhere; }
</style>
</head>
<body>
<main>
<header><h1>flasharr</h1><span id="state" class="quiet">asking</span><span id="when" class="quiet"></span></header>
<section><dl class="facts" id="facts"></dl></section>
<section><h2>Dies</h2><div id="dies"></div>
<div class="legend"><span><b class="current"></b>current</span><span><b class="stale"></b>stale</span><span><b class="erased"></b>erased</span></div>
</section>
<section><h2>Copies still to be made</h2><div class="bar"><i id="made" class="current"></i></div><div id="copies" class="quiet"></div></section>
<div class="two">
<section><h2>Requests a second, last five minutes</h2><svg id="chart" role="img" aria-label="Reads and writes a second"></svg>
<div class="legend"><span><b style="background:var(--current)"></b>reads <span id="reads"></span></span>
<span><b style="background:var(--write)"></b>writes <span id="writes"></span></span></div></section>
<section><h2>Last faults</h2><ul id="faults"></ul></section>
</div>
</main>
<script>
"use strict";
const at = name => document.getElementById(name);
const number = n => n.toLocaleString("en");
function make(kind, text, sort) {
  const made = document.createElement(kind);
  if (text !== undefined) made.textContent = text;
  if (sort) made.className = sort;
  return made;
}
function bytes(n) {
  const units = ["B", "KiB", "MiB", "GiB"];
  let i = 0;
  while (n >= 1024 && i < 3) { n /= 1024; i++; }
  return (i ? n.toFixed(1) : n) + " " + units[i];
}
function showFacts(s) {
  const facts = [["live dies", s.live], ["out", s.out + s.missing], ["spare", s.spare], ["behind", s.behind], ["pages written", s.written],
    ["thin", s.thin], ["lost", s.lost], ["clients", s.clients], ["epoch", s.epoch], ["round", s.round]];
  at("facts").replaceChildren(...facts.map(([name, value]) => {
    const fact = make("div");
    const bad = value && ["out", "lost"].includes(name);
    fact.append(make("dt", name), make("dd", number(value), bad ? "bad" : ""));
    return fact;
  }));
}
function showDies(s) {
  at("dies").replaceChildren(...s.table.map(die => {
    const box = make("div", undefined, "die " + die.state);
    const top = make("div", undefined, "top");
    const isBad = die.state === "out" || die.state === "missing";
    top.append(make("strong", "die " + die.die), make("span", die.state + (die.behind ? ", behind" : ""), isBad ? "bad" : "quiet"));
    box.append(top);
    const bar = make("div", undefined, "bar");
    const all = (die.erased || 0) + (die.current || 0) + (die.stale || 0);
    for (const sort of ["current", "stale"]) {
      const part = make("i", undefined, sort);
      part.style.width = all ? 100 * die[sort] / all + "%" : "0";
      bar.append(part);
    }
    box.append(bar);
    if (all) box.append(make("div", number(die.current) + " current, " + number(die.stale) + " stale, " + number(die.erased) + " erased", "quiet"));
    if (die.slow_milliseconds) box.append(make("div", "a call has lasted " + (die.slow_milliseconds / 1000).toFixed(1) + " s", "bad"));
    const path = make("div", die.path || "no image", "path");
    path.title = die.path || "";
    box.append(path);
    return box;
  }));
}
function showCopies(s) {
  const left = s.copies.wanted - s.copies.made;
  at("made").style.width = s.copies.wanted ? 100 * s.copies.made / s.copies.wanted + "%" : "100%";
  at("copies").textContent = left ? number(left) + " of " + number(s.copies.wanted) + " are still to be made"
    : "none: all pages that are not lost have their copies";
}
function line(values, most, color, width, height) {
  const made = document.createElementNS("http://www.w3.org/2000/svg", "polyline");
  const step = (width - 52) / 299;
  const first = 300 - values.length;
  made.setAttribute("points", values.map((v, i) => (48 + (first + i) * step) + "," + (height - 20 - (height - 34) * v / most)).join(" "));
  made.setAttribute("fill", "none");
  made.setAttribute("stroke", color);
  made.setAttribute("stroke-width", "1.5");
  return made;
}
function word(x, y, text, anchor) {
  const made = document.createElementNS("http://www.w3.org/2000/svg", "text");
  made.setAttribute("x", x);
  made.setAttribute("y", y);
  made.setAttribute("text-anchor", anchor);
  made.textContent = text;
  return made;
}
function showRates(s) {
  const chart = at("chart");
  const width = chart.clientWidth || 600, height = chart.clientHeight || 180;
  const reads = s.seconds.map(x => x.reads), writes = s.seconds.map(x => x.writes);
  const most = Math.max(10, ...reads, ...writes);
  const style = getComputedStyle(document.documentElement);
  const rule = line([0, 0], 1, style.getPropertyValue("--line"), width, height);
  rule.setAttribute("points", "48," + (height - 20) + " " + (width - 4) + "," + (height - 20));
  chart.replaceChildren(rule, line(reads, most, style.getPropertyValue("--current"), width, height),
    line(writes, most, style.getPropertyValue("--write"), width, height), word(44, 18, number(most), "end"), word(44, height - 18, "0", "end"),
    word(48, height - 4, "5 min ago", "start"), word(width - 4, height - 4, "now", "end"));
  const last = s.seconds[s.seconds.length - 1];
  at("reads").textContent = last ? number(last.reads) + ", " + bytes(last.read_bytes) : "";
  at("writes").textContent = last ? number(last.writes) + ", " + bytes(last.written_bytes) : "";
}
function showFaults(s) {
  const told = s.faults.slice(-8).reverse().map(f =>
    make("li", "die " + f.die + " went out in round " + f.round + ": " + f.words + "; " + f.advice));
  const lost = s.lost_ranges.slice(0, 8).map(r => make("li", "pages " + r.first + " to " + r.last + " are lost: write or trim them", "bad"));
  if (s.lost_ranges.length > 8) lost.push(make("li", "and more, in /status.json"));
  const slow = s.table.filter(d => d.slow_milliseconds).map(d =>
    make("li", "die " + d.die + ": a call of its image has not ended: look at its disk", "bad"));
  const all = [...lost, ...slow, ...told];
  at("faults").replaceChildren(...(all.length ? all : [make("li", "none since the start", "quiet")]));
}
function show(s) {
  const isWell = !s.out && !s.missing && !s.lost && !s.thin;
  at("state").textContent = s.lost ? "pages are lost" : s.thin ? "copies are being made" : s.out || s.missing ? "a die is not in use" : "all is well";
  at("state").className = isWell ? "good" : "bad";
  at("when").textContent = new Date().toLocaleTimeString("en-GB");
  showFacts(s); showDies(s); showCopies(s); showRates(s); showFaults(s);
}
async function ask() {
  try {
    const answer = await fetch("/status.json", { cache: "no-store", signal: AbortSignal.timeout(5000) });
    if (!answer.ok) throw new Error(answer.status);
    show(await answer.json());
  } catch (refused) {
    at("state").textContent = "the server gives no answer";
    at("state").className = "bad";
  }
  setTimeout(ask, 1000);
}
ask();
</script>
</body>
</html>
"##;
